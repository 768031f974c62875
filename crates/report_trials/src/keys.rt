use life_table::LifeTable;
use std::alloc::Global;
use std::cmp::Ordering;
use std::test::Fail;
use text_reports::{KeyFault, TextKey, key_of, order_of_text_keys};

/// The key of a text by the default table.
fn key(alloc: Global, text: &str) -> Result<TextKey, KeyFault> {
    match LifeTable::default_table(alloc) {
        Ok(table) => key_of(alloc, &table, text),
        Err(_) => Err(KeyFault::NoMemory),
    }
}

#[test]
fn pirep_is_named_by_three_words(rt: HostRuntime) -> Result<(), Fail> {
    let key = key(rt.alloc(), "PIREP SEA 142213Z UA")?;
    assert_eq!(rt; key.kind.all(), "PIREP");
    assert_eq!(rt; key.place.all(), "SEA");
    let third = key.third.as_ref().ok_or("no third word")?;
    assert_eq!(rt; third.all(), "142213Z");
    assert_eq!(rt; third.len(), 7);
    assert_eq!(rt; third.at(6), 'Z');
    Ok(())
}

#[test]
fn copies_are_equal(rt: HostRuntime) -> Result<(), Fail> {
    let key = key(rt.alloc(), "PIREP SEA 142213Z UA")?;
    let third = key.third.as_ref().ok_or("no third word")?;
    for word in [&key.kind, &key.place, third] {
        let copy = word.copy(rt.alloc())?;
        assert!(rt; copy == *word);
        assert_eq!(rt; copy.all(), word.all());
    }
    let copy = key.copy(rt.alloc())?;
    assert!(rt; copy == key);
    Ok(())
}

#[test]
fn words_are_cut_at_spaces_and_newlines(rt: HostRuntime) -> Result<(), Fail> {
    for text in [
        "SPECI KSEA",
        "  SPECI\n\nKSEA 142253Z",
        "\nSPECI  \n KSEA\n",
        "SPECI\nKSEA\t7",
    ] {
        let key = key(rt.alloc(), text)?;
        assert_eq!(rt; key.kind.all(), "METAR", "{text}");
        assert!(rt; key.place.all().starts_with("KSEA"), "{text}");
        assert!(rt; key.third.is_none(), "{text}");
    }
    Ok(())
}

#[test]
fn word_is_seen_by_its_characters(rt: HostRuntime) -> Result<(), Fail> {
    let key = key(rt.alloc(), "METAR Zürich")?;
    assert_eq!(rt; key.place.len(), 6);
    assert_eq!(rt; key.place.at(1), 'ü');
    assert_eq!(rt; key.place.at(2), 'r');
    Ok(())
}

#[test]
fn texts_without_a_key_are_told(rt: HostRuntime) {
    for (text, fault) in [
        ("", KeyFault::FewWords),
        (" \n ", KeyFault::FewWords),
        ("METAR", KeyFault::FewWords),
        ("NOTAM", KeyFault::FewWords),
        ("PIREP SEA", KeyFault::FewWords),
        ("PIREP SEA \n", KeyFault::FewWords),
        ("NOTAM KSEA", KeyFault::Unlisted),
        ("METAR\tKSEA 142253Z", KeyFault::Unlisted),
        ("metar KSEA", KeyFault::Unlisted),
    ] {
        assert!(rt; key(rt.alloc(), text).is_err_and(|e| e == fault), "{text}");
    }
}

/// How the keys of two texts are ordered.
fn order(alloc: Global, one: &str, other: &str) -> Result<Ordering, KeyFault> {
    Ok(order_of_text_keys(&key(alloc, one)?, &key(alloc, other)?))
}

#[test]
fn keys_are_ordered_by_their_words(rt: HostRuntime) -> Result<(), Fail> {
    for (one, other) in [
        ("METAR KBFI", "METAR KSEA"),
        ("METAR KSEA", "METAR KSEA1"),
        ("METAR KSEA1", "PIREP SEA 14"),
        ("PIREP SEA 14", "PIREP SEA 142213Z"),
        ("PIREP SEA 142213Z", "TAF KSEA"),
    ] {
        assert!(rt; order(rt.alloc(), one, other)? == Ordering::Less, "{one}");
        assert!(rt;
            order(rt.alloc(), other, one)? == Ordering::Greater,
            "{one}"
        );
        assert!(rt; order(rt.alloc(), one, one)? == Ordering::Equal, "{one}");
    }
    Ok(())
}

#[test]
fn key_without_a_third_word_comes_first(rt: HostRuntime) -> Result<(), Fail> {
    let with = key(rt.alloc(), "PIREP SEA 14")?;
    let without = TextKey {
        kind: with.kind.copy(rt.alloc())?,
        place: with.place.copy(rt.alloc())?,
        third: None,
    };
    assert!(rt; without.cmp(&with) == Ordering::Less);
    Ok(())
}
