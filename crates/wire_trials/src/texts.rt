use dlac_text::{Report, TextFault, encode_text, plain, reports, unplain};
use std::alloc::{AllocError, Global};
use std::test::Fail;

const METAR: [u8; 9] = [0x34, 0x55, 0x01, 0x4A, 0x02, 0xD3, 0x14, 0x10, 0x00];

#[test]
fn text_is_packed_in_six_bits(rt: HostRuntime) -> Result<(), Fail> {
    let bytes = encode_text(rt.alloc(), "METAR KSEA")?;
    assert_eq!(rt; bytes.all(), METAR.as_slice());
    let rare = encode_text(rt.alloc(), "|\n\u{1A}?")?;
    assert_eq!(rt; rare.all(), [0x7D, 0xE6, 0xFF, 0x00].as_slice());
    Ok(())
}

#[test]
fn payload_reads_back_as_its_text(rt: HostRuntime) -> Result<(), Fail> {
    let found = reports(rt.alloc(), METAR.as_slice())?;
    assert_eq!(rt; found.len(), 1);
    let report = &found[0];
    assert_eq!(rt; report.all(), "METAR KSEA");
    assert_eq!(rt; report.len(), 10);
    assert!(rt; !report.is_empty());
    assert_eq!(rt; report.at(5), ' ');
    Ok(())
}

#[test]
fn ends_and_tabs_are_read(rt: HostRuntime) -> Result<(), Fail> {
    let two = reports(rt.alloc(), [0x05, 0xD0, 0x80].as_slice())?;
    assert_eq!(rt; two.len(), 2);
    assert_eq!(rt; two[0].all(), "A");
    assert_eq!(rt; two[1].all(), "B");
    let spaced = reports(rt.alloc(), [0x05, 0xC0, 0xC2].as_slice())?;
    assert_eq!(rt; spaced.len(), 1);
    assert_eq!(rt; spaced[0].all(), "A   B");
    assert_eq!(rt; reports(rt.alloc(), [].as_slice())?.len(), 0);
    // A TAB as the last code, and a code 0 and a rest of four bits.
    assert_eq!(rt; reports(rt.alloc(), [0x70].as_slice())?.len(), 0);
    assert_eq!(rt; reports(rt.alloc(), [0x00, 0x0F].as_slice())?.len(), 0);
    Ok(())
}

#[test]
fn first_character_outside_the_alphabet_is_named(rt: HostRuntime) {
    for (text, bad) in [("METAR ksea", 6), ("A{B", 1), ("Zürich é", 1), ("é", 0)] {
        let answer = encode_text(rt.alloc(), text);
        assert!(rt;
            matches!(answer, Err(TextFault::BadCharacter { place }) if place == bad),
            "{text}"
        );
    }
}

#[test]
fn greatest_text_is_taken(rt: HostRuntime) -> Result<(), Fail> {
    let greatest = copies_of(rt.alloc(), 16_384)?;
    let text = greatest.as_str();
    assert_eq!(rt; text.len(), 16_384);
    let bytes = encode_text(rt.alloc(), text)?;
    assert_eq!(rt; bytes.len(), 12_289);
    let found = reports(rt.alloc(), bytes.all())?;
    assert_eq!(rt; found.len(), 1);
    let copy = found[0].copy(rt.alloc())?;
    assert_eq!(rt; copy.all(), text);
    let shown = plain(rt.alloc(), &copy)?;
    assert_eq!(rt; shown.as_str(), text);
    let back = unplain(rt.alloc(), shown.as_str())?.ok_or("not read")?;
    assert_eq!(rt; back.as_str(), text);
    let longer = copies_of(rt.alloc(), 16_385)?;
    let text = longer.as_str();
    assert_eq!(rt; text.len(), 16_385);
    assert!(rt; matches!(encode_text(rt.alloc(), text), Err(TextFault::TooLong)));
    Ok(())
}

#[test]
fn report_is_shown_on_one_line(rt: HostRuntime) -> Result<(), Fail> {
    for (text, line) in [("A\nB", "A\\nB"), ("A\nB\u{1A}", "A\\nB\\z")] {
        let bytes = encode_text(rt.alloc(), text)?;
        let found = reports(rt.alloc(), bytes.all())?;
        assert_eq!(rt; found.len(), 1);
        let shown = plain(rt.alloc(), &found[0])?;
        assert_eq!(rt; shown.as_str(), line);
        let back = unplain(rt.alloc(), shown.as_str())?.ok_or("not read")?;
        assert_eq!(rt; back.as_str(), text);
    }
    for wrong in ["A\\q", "A\\", "\\\\n"] {
        assert!(rt; unplain(rt.alloc(), wrong)?.is_none(), "{wrong}");
    }
    Ok(())
}

#[test]
fn copy_equals_its_report(rt: HostRuntime) -> Result<(), Fail> {
    let found = reports(rt.alloc(), METAR.as_slice())?;
    assert_eq!(rt; found.len(), 1);
    let copy = found[0].copy(rt.alloc())?;
    assert!(rt; copy == found[0]);
    assert_eq!(rt; copy.all(), "METAR KSEA");
    Ok(())
}

#[test]
fn fault_says_its_cause(rt: HostRuntime) -> Result<(), Fail> {
    let text = format!(in rt.alloc(); "{}", TextFault::BadCharacter { place: 6 })?;
    assert_eq!(rt; text.as_str(), "the character at place 6 has no DLAC code");
    Ok(())
}

/// The letter A so many times.
fn copies_of(alloc: Global, count: usize) -> Result<String, AllocError> {
    let mut text = String::new(alloc);
    for _ in 0..count {
        text.push('A')?;
    }
    Ok(text)
}
