use dlac_text::{Report, reports};
use fisb_time::Moment;
use life_table::LifeTable;
use picture_core::{Entries, Key, Picture, Shown, order_of_keys};
use radar_core::{BlockKey, Cells};
use std::alloc::Global;
use std::cmp::Ordering;
use std::test::Fail;
use text_reports::key_of;
use undo_map::Duplicate;

/// The text `A` or, as the second one, `B`.
fn text(alloc: Global, second: bool) -> Result<Report, Fail> {
    let mut texts = reports(alloc, &[0x05, 0xD0, 0x80])?.into_iter();
    let first = texts.next().ok_or("no first text")?;
    if second {
        return Ok(texts.next().ok_or("no second text")?);
    }
    Ok(first)
}

fn text_key(alloc: Global) -> Result<Key, Fail> {
    let table = LifeTable::default_table(alloc)?;
    Ok(Key::Text(key_of(alloc, &table, "METAR KSEA")?))
}

fn block(number: u32) -> BlockKey {
    BlockKey {
        product: 63,
        scale: 0,
        south: false,
        number,
    }
}

fn moment(seconds: u64) -> Result<Moment, Fail> {
    Ok(Moment::new(seconds).ok_or("no moment")?)
}

/// Whether one entry is shown, with this version and this text.
fn shows(entries: &Entries, version: u64, text: &str) -> bool {
    match entries.all() {
        [entry] => match &entry.value {
            Shown::Text(report) => entry.version.seconds() == version && report.all() == text,
            Shown::Cells(_) => false,
        },
        _ => false,
    }
}

#[test]
fn newest_version_is_shown(rt: HostRuntime) -> Result<(), Fail> {
    let alloc = rt.alloc();
    let mut picture = Picture::new(alloc);
    for (version, until, second) in [
        (1_699_999_980, 1_700_007_180, false),
        (1_699_999_920, 1_700_007_120, true),
        (1_699_999_980, 1_700_007_180, true),
    ] {
        let Key::Text(key) = text_key(alloc)? else {
            return Ok(());
        };
        let report = text(alloc, second)?;
        picture.put(Key::Text(key), moment(version)?, until, Shown::Text(report))?;
        let shown = picture.at(alloc, moment(1_700_000_000)?)?;
        assert!(rt; shows(&shown, 1_699_999_980, "A"));
    }
    assert_eq!(rt; picture.at(alloc, moment(1_700_007_180)?)?.len(), 0);
    Ok(())
}

#[test]
fn blocks_are_kept_until_they_end(rt: HostRuntime) -> Result<(), Fail> {
    let alloc = rt.alloc();
    let now = moment(1_700_000_000)?;
    let mut picture = Picture::new(alloc);
    for number in 0..100 {
        let until = 1_700_000_001 + u64::from(number % 2);
        picture.put(
            Key::Radar(block(number)),
            now,
            until,
            Shown::Cells(Cells::blank()),
        )?;
    }
    picture.mark();
    picture.put(
        Key::Radar(block(100)),
        now,
        1_700_000_001,
        Shown::Cells(Cells::blank()),
    )?;
    picture.settle();
    picture.mark();
    picture.put(
        Key::Radar(block(101)),
        now,
        1_700_000_002,
        Shown::Cells(Cells::blank()),
    )?;
    assert_eq!(rt; picture.len(), 102);
    picture.undo();
    picture.purge(moment(1_700_000_001)?);
    assert_eq!(rt; picture.len(), 50);
    let shown = picture.at(alloc, now)?;
    assert!(rt; !shown.is_empty());
    assert!(rt; 49 < shown.len());
    assert!(rt; order_of_keys(&shown.at(49).key, &Key::Radar(block(99))) == Ordering::Equal);
    Ok(())
}

#[test]
fn keys_are_ordered_and_copied(rt: HostRuntime) -> Result<(), Fail> {
    let alloc = rt.alloc();
    let key = text_key(alloc)?;
    assert!(rt; order_of_keys(&Key::Radar(block(7)), &key) == Ordering::Less);
    assert!(rt; order_of_keys(&key.duplicate(alloc)?, &key) == Ordering::Equal);
    let value = Shown::Text(text(alloc, true)?);
    match value.copy(alloc)? {
        Shown::Text(report) => assert_eq!(rt; report.all(), "B"),
        Shown::Cells(_) => assert!(rt; false),
    }
    Ok(())
}
