use fisb_time::TimeForm;
use life_table::{LifeTable, RowFault, TableFault};
use std::alloc::{AllocError, Global};
use std::process::Abort;
use std::test::Fail;

const METAR: &str = "type = \"METAR\"\nwords = 2\nlife = 7200\nform = 0\n";

/// The text of a document of some rows after a head of version 1 and a late time of 600 seconds.
fn document(alloc: Global, rows: &[&str]) -> Result<String, AllocError> {
    let mut text = String::from_str(alloc, "version = 1\nlate = 600\n")?;
    for row in rows {
        text.push_str(row)?;
        text.push_str("\n")?;
    }
    Ok(text)
}

/// Why a document writes no table, if it writes none.
fn fault(alloc: Global, text: &str) -> Option<TableFault> {
    LifeTable::read(alloc, text.as_bytes()).err()
}

/// The fault of a row.
fn bad_row(row: u32, reason: RowFault) -> Option<TableFault> {
    Some(TableFault::BadRow { row, reason })
}

#[test]
fn lives_of_reports_end_within_a_day(rt: HostRuntime) -> Result<(), Fail> {
    let alloc = rt.alloc();
    let rows = [
        "[[text]]",
        "type = \"METAR\"",
        "words = 2",
        "life = 86400",
        "form = 0",
    ];
    let text = document(alloc, &rows)?;
    assert_eq!(rt; fault(alloc, text.as_str()), bad_row(1, RowFault::Life));
    let rows = ["[[text]]", METAR];
    let table = LifeTable::read(alloc, document(alloc, &rows)?.as_str().as_bytes())?;
    let row = table.text_row("METAR").ok_or("no row")?;
    assert_eq!(rt; row.life, 7_200);
    assert_eq!(rt; table.longest(413), Some(7_200));
    assert_eq!(rt; table.longest(63), None);
    Ok(())
}

/// The late time and the longest lives of the default table.
fn check_default_products(rt: &impl Abort, table: &LifeTable) {
    assert_eq!(rt; table.late(), 600);
    assert_eq!(rt; table.longest(413), Some(86_400));
    assert_eq!(rt; table.longest(63), Some(1_200));
    assert_eq!(rt; table.longest(64), Some(2_700));
    assert_eq!(rt; table.longest(65), None);
}

/// Its rows of reports.
fn check_default_reports(rt: &impl Abort, table: &LifeTable) -> Result<(), Fail> {
    let speci = table.text_row("SPECI").ok_or("no SPECI")?;
    assert_eq!(rt; speci.kind, "METAR");
    assert_eq!(rt; speci.words, 2);
    assert_eq!(rt; speci.life, 7_200);
    assert_eq!(rt; speci.form, TimeForm::Minute);
    let pirep = table.text_row("PIREP").ok_or("no PIREP")?;
    assert_eq!(rt; pirep.words, 3);
    assert!(rt; table.text_row("NOTAM").is_none());
    assert!(rt; table.text_row("").is_none());
    Ok(())
}

/// Its rows of radar.
fn check_default_radar(rt: &impl Abort, table: &LifeTable) -> Result<(), Fail> {
    let composite = table.radar_row(64).ok_or("no radar")?;
    assert_eq!(rt; composite.life, 2_700);
    assert_eq!(rt; composite.form, TimeForm::Minute);
    assert!(rt; table.radar_row(413).is_none());
    Ok(())
}

#[test]
fn default_table_and_its_copy_agree(rt: HostRuntime) -> Result<(), Fail> {
    let table = LifeTable::default_table(rt.alloc())?;
    let copy = table.copy(rt.alloc())?;
    for table in [&table, &copy] {
        check_default_products(&rt, table);
        check_default_reports(&rt, table)?;
        check_default_radar(&rt, table)?;
    }
    Ok(())
}

#[test]
fn odd_documents_are_tables_or_have_a_fault(rt: HostRuntime) {
    let not_toml = Some(TableFault::NotToml);
    for (text, wrong) in [
        // No document of the language.
        ("version =", not_toml),
        ("version = 1\nversion = 1\nlate = 0\n", not_toml),
        ("text = []\n[[text]]\n", not_toml),
        ("late = 9999999999999999999\n", not_toml),
        ("a = 1\rb = 1", not_toml),
        ("version = 1\nlate = 0\0\n", not_toml),
        ("version = 1 # \0\nlate = 0\n", not_toml),
        ("\u{FEFF}\u{FEFF}version = 1\nlate = 43_200\n", not_toml),
        // Odd spellings of a table.
        ("\u{FEFF}version = 1\nlate = 43_200\n", None),
        ("version = 1\nlate = 0\n", None),
        ("version = 0x1\nlate = +0\n", None),
        (
            "version = 1\n\"l\\u0061te\" = 600\ntext = []\nradar = []\n",
            None,
        ),
        (
            "version = 1\nlate = 0\n\
            text = [{ type = \"A\", words = 2, life = 1, form = 1 }, \
            { type = \"B\", as = \"A\" }]\n",
            None,
        ),
        (
            "version = 1\nlate = 600\n[[radar]]\nproduct = 63\nlife = 1\nform = 3\n\
            [[text]]\ntype = \"A./-9\"\nwords = 3\nlife = 2592000\nform = 3\n",
            None,
        ),
        // The first fault of the document's own entries.
        ("", bad_row(0, RowFault::Shape)),
        ("version = 1\n", bad_row(0, RowFault::Shape)),
        ("late = 600\n", bad_row(0, RowFault::Shape)),
        ("version = 1.0\nlate = 600\n", bad_row(0, RowFault::Shape)),
        ("version = 2\nlate = \"600\"\n", bad_row(0, RowFault::Shape)),
        (
            "version = 1\nlate = 600\nlater = 1\n",
            bad_row(0, RowFault::Shape),
        ),
        (
            "version = 1\nlate = 600\ntext = 1\n",
            bad_row(0, RowFault::Shape),
        ),
        (
            "version = 1\nlate = 600\ntext = [1]\n",
            bad_row(0, RowFault::Shape),
        ),
        (
            "version = 1\nlate = 600\nradar = [{}, 1]\n",
            bad_row(0, RowFault::Shape),
        ),
        ("version = 2\nlate = 43201\n", bad_row(0, RowFault::Version)),
        ("version = -1\nlate = 600\n", bad_row(0, RowFault::Version)),
        ("version = 1\nlate = 43201\n", bad_row(0, RowFault::Late)),
        ("version = 1\nlate = -1\n", bad_row(0, RowFault::Late)),
    ] {
        assert_eq!(rt; fault(rt.alloc(), text), wrong, "{text}");
    }
    let no_text = LifeTable::read(rt.alloc(), [0xFF, 0xFE].as_slice());
    assert_eq!(rt; no_text.err(), not_toml);
}

/// A document of rows by these names: a product's number names a row of radar.
fn mixed_document(alloc: Global, names: &[&str]) -> Result<String, AllocError> {
    let mut text = String::from_str(alloc, "version = 1\nlate = 600\n")?;
    for name in names {
        let row = if name.starts_with("6") {
            format!(in alloc; "[[radar]]\nproduct = {name}\nlife = 1\nform = 0\n")?
        } else {
            format!(in alloc; "[[text]]\ntype = \"{name}\"\nwords = 2\nlife = 1\nform = 0\n")?
        };
        text.push_str(row.as_str())?;
    }
    Ok(text)
}

#[test]
fn mixed_rows_are_counted_within_their_key(rt: HostRuntime) -> Result<(), Fail> {
    let alloc = rt.alloc();
    for (names, wrong) in [
        (["METAR", "63", "SPECI", "64"], None),
        (["63", "METAR", "64", "SPECI"], None),
        (["METAR", "63", "metar", "64"], bad_row(2, RowFault::Word)),
        (["63", "METAR", "64", "metar"], bad_row(2, RowFault::Word)),
        (
            ["63", "METAR", "65", "SPECI"],
            bad_row(4, RowFault::Product),
        ),
        (["METAR", "63", "SPECI", "63"], bad_row(4, RowFault::Twice)),
        (["65", "metar", "65", "METAR"], bad_row(1, RowFault::Word)),
    ] {
        let text = mixed_document(alloc, &names)?;
        assert_eq!(rt; fault(alloc, text.as_str()), wrong, "{text}");
    }
    Ok(())
}

#[test]
fn rows_are_told_by_their_first_fault(rt: HostRuntime) -> Result<(), Fail> {
    let alloc = rt.alloc();
    for (row, wrong) in [
        ("type = \"A\"", Some(RowFault::Shape)),
        (
            "type = 1\nwords = 2\nlife = 1\nform = 0",
            Some(RowFault::Shape),
        ),
        (
            "type = \"A\"\nwords = 2\nlife = 1\nform = 0\nas = \"METAR\"",
            Some(RowFault::Shape),
        ),
        (
            "type = \"A\"\nas = \"METAR\"\nwords = 2",
            Some(RowFault::Shape),
        ),
        (
            "type = \"A\"\nwords = 2\nlife = 1.0\nform = 0",
            Some(RowFault::Shape),
        ),
        (
            "type = \"\"\nwords = 2\nlife = 1\nform = 0",
            Some(RowFault::Word),
        ),
        (
            "type = \"ABCDEFGHIJKLMNOPQ\"\nwords = 4\nlife = 1\nform = 0",
            Some(RowFault::Word),
        ),
        (
            "type = \"ABCDEFGHIJKLMNOP\"\nwords = 2\nlife = 1\nform = 0",
            None,
        ),
        (
            "type = \"a\"\nwords = 2\nlife = 1\nform = 0",
            Some(RowFault::Word),
        ),
        ("type = \"A\"\nas = \"metar\"", Some(RowFault::Word)),
        (
            "type = \"METAR\"\nwords = 4\nlife = 1\nform = 0",
            Some(RowFault::Twice),
        ),
        ("type = \"SPECI\"\nas = \"METAR\"", Some(RowFault::Twice)),
        ("type = \"A\"\nas = \"A\"", Some(RowFault::As)),
        ("type = \"A\"\nas = \"SPECI\"", Some(RowFault::As)),
        (
            "type = \"A\"\nas = \"LATER\"\n\
            [[text]]\ntype = \"LATER\"\nwords = 2\nlife = 1\nform = 0",
            Some(RowFault::As),
        ),
        ("type = \"A\"\nas = \"METAR\"", None),
        (
            "type = \"A\"\nwords = 1\nlife = 1\nform = 4",
            Some(RowFault::Words),
        ),
        (
            "type = \"A\"\nwords = 4\nlife = 1\nform = 0",
            Some(RowFault::Words),
        ),
        (
            "type = \"A\"\nwords = 3\nlife = 0\nform = 4",
            Some(RowFault::Form),
        ),
        (
            "type = \"A\"\nwords = 3\nlife = 1\nform = -1",
            Some(RowFault::Form),
        ),
        (
            "type = \"A\"\nwords = 3\nlife = 0\nform = 0",
            Some(RowFault::Life),
        ),
        (
            "type = \"A\"\nwords = 3\nlife = -1\nform = 3",
            Some(RowFault::Life),
        ),
        ("type = \"A\"\nwords = 3\nlife = 85740\nform = 0", None),
        (
            "type = \"A\"\nwords = 3\nlife = 85741\nform = 1",
            Some(RowFault::Life),
        ),
        ("type = \"A\"\nwords = 3\nlife = 2592000\nform = 2", None),
        (
            "type = \"A\"\nwords = 3\nlife = 2592001\nform = 3",
            Some(RowFault::Life),
        ),
    ] {
        let rows = [
            "[[text]]",
            METAR,
            "[[text]]\ntype = \"SPECI\"\nas = \"METAR\"",
            "[[text]]",
            row,
        ];
        let text = document(alloc, &rows)?;
        // `late` is 600, so that a life of 85,740 ends with the day.
        assert_eq!(rt;
            fault(alloc, text.as_str()),
            wrong.and_then(|reason| bad_row(3, reason)),
            "{row}"
        );
    }
    Ok(())
}

#[test]
fn radar_rows_are_told_behind_the_reports(rt: HostRuntime) -> Result<(), Fail> {
    let alloc = rt.alloc();
    for (row, wrong) in [
        ("product = 64\nlife = 1", Some(RowFault::Shape)),
        (
            "product = 64\nlife = 1\nform = 0\nwords = 2",
            Some(RowFault::Shape),
        ),
        (
            "product = \"64\"\nlife = 1\nform = 0",
            Some(RowFault::Shape),
        ),
        ("product = 65\nlife = 1\nform = 9", Some(RowFault::Product)),
        ("product = -63\nlife = 1\nform = 0", Some(RowFault::Product)),
        ("product = 63\nlife = 1\nform = 9", Some(RowFault::Twice)),
        ("product = 64\nlife = 0\nform = 9", Some(RowFault::Form)),
        ("product = 64\nlife = 0\nform = 0", Some(RowFault::Life)),
        ("product = 64\nlife = 85741\nform = 0", Some(RowFault::Life)),
        ("product = 64\nlife = 85740\nform = 0", None),
    ] {
        let rows = [
            "[[radar]]\nproduct = 63\nlife = 1\nform = 2\n[[radar]]",
            row,
            "[[text]]",
            METAR,
        ];
        let text = document(alloc, &rows)?;
        assert_eq!(rt;
            fault(alloc, text.as_str()),
            wrong.and_then(|reason| bad_row(3, reason)),
            "{row}"
        );
    }
    Ok(())
}

#[test]
fn rows_are_at_most_64_and_2(rt: HostRuntime) -> Result<(), Fail> {
    let alloc = rt.alloc();
    for (count, wrong) in [(64, None), (65, bad_row(0, RowFault::Rows))] {
        let mut text = document(alloc, &["[[radar]]\nproduct = 63\nlife = 1\nform = 0"])?;
        for number in 0..count {
            text.push_str("[[text]]\ntype = \"A")?;
            text.push(char::from(b'A' + number / 26))?;
            text.push(char::from(b'A' + number % 26))?;
            text.push_str("\"\nwords = 2\nlife = 1\nform = 0\n")?;
        }
        assert_eq!(rt; fault(alloc, text.as_str()), wrong);
    }
    let radar = "[[radar]]\nproduct = 63\nlife = 1\nform = 0";
    let other = "[[radar]]\nproduct = 64\nlife = 1\nform = 0";
    let two = document(alloc, &[radar, other])?;
    assert_eq!(rt; fault(alloc, two.as_str()), None);
    let three = document(alloc, &[radar, other, other])?;
    assert_eq!(rt; fault(alloc, three.as_str()), bad_row(0, RowFault::Rows));
    Ok(())
}
