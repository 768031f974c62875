//! Trials of texts.
use crate::steps::{
    Answer, MINUTE, NOW, Step, fault_of_text, first_wrong, first_wrong_of_new, ground_under,
    has_bytes, moment_of, next_frame, with_letters,
};
use ground_core::{Ground, Station};
use life_table::LifeTable;
use std::alloc::Global;
use std::test::Fail;

#[test]
fn a_text_is_sent_in_the_next_frame(rt: HostRuntime) -> Result<(), Fail> {
    // The payload's bytes 0 to 71 are the first block, of which each sixth byte of the frame is
    // one.
    let bytes = &[
        (36, 1, 0xA0),
        (48, 1, 0x06),
        (54, 1, 0x80),
        (60, 1, 0x06),
        (66, 1, 0x74),
    ];
    let steps = [
        Step::Give(NOW, MINUTE, "METAR KSEA", 0, Answer::Given),
        Step::Fill(NOW + 1, 1, 15, bytes),
    ];
    assert_eq!(rt; first_wrong_of_new(rt.alloc(), &steps)?, None);
    Ok(())
}

#[test]
fn the_header_is_that_of_the_station(rt: HostRuntime) -> Result<(), Fail> {
    let station = Station {
        lat: 0x43_0000,
        lon: 0xA9_0000,
        position_valid: true,
        site: 5,
    };
    let table = LifeTable::default_table(rt.alloc())?;
    let mut ground = Ground::new(rt.alloc(), station, table);
    let frame = ground.fill(moment_of(NOW)?, 17)?;
    let header = &[
        (0, 1, 0x86),
        (6, 1, 0x00),
        (12, 1, 0x01),
        (18, 1, 0x52),
        (24, 1, 0x00),
        (30, 1, 0x01),
        (36, 1, 0xB1),
        (42, 1, 0x50),
    ];
    assert_eq!(rt; frame.slot, 17);
    assert!(rt; has_bytes(&frame.air, header));
    Ok(())
}

#[test]
fn winds_of_the_day_before_have_its_date(rt: HostRuntime) -> Result<(), Fail> {
    let bytes = &[
        (60, 1, 0x06),
        (66, 1, 0x75),
        (72, 1, 0x5B),
        (78, 1, 0x6F),
        (84, 1, 0xD8),
    ];
    let steps = [
        Step::Give(NOW, 1_699_919_940, "WINDS KSEA 3000", 0, Answer::Given),
        Step::Fill(NOW, 1, 19, bytes),
    ];
    assert_eq!(rt; first_wrong_of_new(rt.alloc(), &steps)?, None);
    Ok(())
}

#[test]
fn a_call_below_the_last_moment_is_told_by_the_clock(rt: HostRuntime) -> Result<(), Fail> {
    let steps = [
        Step::Give(NOW, MINUTE, "METAR KSEA", 0, Answer::Given),
        Step::Give(NOW - 1, MINUTE, "METAR KBFI", 0, Answer::Clock(NOW)),
        Step::FillEarly(NOW - 1, NOW),
        Step::Fill(NOW, 1, 15, &[]),
    ];
    assert_eq!(rt; first_wrong_of_new(rt.alloc(), &steps)?, None);
    Ok(())
}

#[test]
fn three_texts_of_273_characters_take_turns(rt: HostRuntime) -> Result<(), Fail> {
    // The byte that begins with the third letter of each place: 4 for an A, 8 for a B, 12 for a C.
    let steps = [
        Step::Give(NOW, MINUTE, "METAR KAAA ", 262, Answer::Given),
        Step::Give(NOW, MINUTE, "METAR KBBB ", 262, Answer::Given),
        Step::Give(NOW, MINUTE, "METAR KCCC ", 262, Answer::Given),
        Step::Fill(NOW, 2, 424, &[(120, 1, 4), (99, 1, 8)]),
        Step::Fill(NOW, 2, 424, &[(120, 1, 12), (99, 1, 4)]),
        Step::Fill(NOW, 2, 424, &[(120, 1, 8), (99, 1, 12)]),
    ];
    assert_eq!(rt; first_wrong_of_new(rt.alloc(), &steps)?, None);
    Ok(())
}

#[test]
fn long_texts_of_one_version_are_numbered_from_0(rt: HostRuntime) -> Result<(), Fail> {
    // Byte 84 begins with the file number, which is below 64, and byte 96 is the segment's number.
    // The second segment has 36 of the 451 bytes. Each version numbers its own texts from 0.
    let day_later = MINUTE + 86_400;
    let steps = [
        Step::Give(NOW, MINUTE, "METAR KAAA ", 589, Answer::Given),
        Step::Give(NOW, MINUTE, "METAR KBBB ", 589, Answer::Given),
        Step::Fill(NOW, 1, 424, &[(84, 4, 0), (96, 1, 1)]),
        Step::Fill(NOW, 1, 45, &[(84, 4, 0), (96, 1, 2)]),
        Step::Fill(NOW, 1, 424, &[(84, 4, 1), (96, 1, 1)]),
        Step::Fill(NOW, 1, 45, &[(84, 4, 1), (96, 1, 2)]),
        Step::Give(day_later, day_later, "METAR KCCC ", 589, Answer::Given),
        Step::Fill(day_later, 1, 424, &[(84, 4, 0), (96, 1, 1)]),
    ];
    assert_eq!(rt; first_wrong_of_new(rt.alloc(), &steps)?, None);
    Ok(())
}

/// How many of so many frames have one body that fills them.
fn full_frames(ground: &mut Ground, frames: u32) -> Result<u32, Fail> {
    let mut full = 0u32;
    for _ in 0..frames {
        let frame = next_frame(ground, NOW)?;
        if frame.bodies == 1 && frame.used == 424 {
            full = full.wrapping_add(1);
        }
    }
    Ok(full)
}

#[test]
fn the_longest_text_has_30_segments(rt: HostRuntime) -> Result<(), Fail> {
    let alloc = rt.alloc();
    let mut ground = ground_under(alloc, LifeTable::default_table(alloc)?);
    let longest = [Step::Give(NOW, MINUTE, "METAR KSEA ", 16_373, Answer::Given)];
    assert_eq!(rt; first_wrong(alloc, &mut ground, &longest)?, None);
    assert_eq!(rt; full_frames(&mut ground, 29)?, 29);
    let steps = [
        Step::Fill(NOW, 1, 263, &[]),
        Step::Give(NOW, MINUTE + 60, "METAR KSEA ", 16_374, Answer::TooLong),
    ];
    assert_eq!(rt; first_wrong(alloc, &mut ground, &steps)?, None);
    Ok(())
}

#[test]
fn a_newer_version_takes_the_place_of_the_older(rt: HostRuntime) -> Result<(), Fail> {
    let steps = [
        Step::Give(NOW, MINUTE, "METAR KSEA 1", 0, Answer::Given),
        Step::Give(NOW, MINUTE, "SPECI KSEA 2", 0, Answer::NotNewer(MINUTE)),
        Step::Give(NOW, MINUTE + 60, "METAR KSEA 3", 0, Answer::Given),
        Step::Fill(NOW, 1, 16, &[]),
    ];
    assert_eq!(rt; first_wrong_of_new(rt.alloc(), &steps)?, None);
    Ok(())
}

#[test]
fn a_life_ends_at_its_second(rt: HostRuntime) -> Result<(), Fail> {
    // The key is forgotten then, and an older version is refused because its life is over.
    let end = MINUTE + 7_200;
    let steps = [
        Step::Give(NOW, MINUTE, "METAR KSEA", 0, Answer::Given),
        Step::Fill(end - 1, 1, 15, &[]),
        Step::Fill(end, 0, 0, &[]),
        Step::Give(end, MINUTE, "METAR KSEA", 0, Answer::Expired),
        Step::Give(end, MINUTE + 60, "METAR KSEA", 0, Answer::Given),
        Step::Fill(end, 1, 15, &[]),
    ];
    assert_eq!(rt; first_wrong_of_new(rt.alloc(), &steps)?, None);
    Ok(())
}

/// A table with a type of each form.
const FOUR_FORMS: &str = "version = 1\nlate = 600\n\
    [[text]]\ntype = \"METAR\"\nwords = 2\nlife = 7200\nform = 0\n\
    [[text]]\ntype = \"TAF\"\nwords = 2\nlife = 28800\nform = 1\n\
    [[text]]\ntype = \"PIREP\"\nwords = 3\nlife = 10800\nform = 2\n\
    [[text]]\ntype = \"WINDS\"\nwords = 3\nlife = 86400\nform = 3\n";

/// How many texts of a type are taken, of so many of different places with so many letters A.
fn count_given(
    alloc: Global,
    ground: &mut Ground,
    kind: &str,
    places: u32,
    letters: usize,
) -> Result<u32, Fail> {
    let mut count = 0u32;
    for place in 0..places {
        let front = format!(in alloc; "{kind} K{place:04} ")?;
        let text = with_letters(alloc, front.as_str(), letters)?;
        if fault_of_text(ground, NOW, MINUTE, text.as_str())?.is_none() {
            count = count.wrapping_add(1);
        }
    }
    Ok(count)
}

fn bodies_in(ground: &mut Ground, frames: u32) -> Result<u32, Fail> {
    let mut bodies = 0u32;
    for _ in 0..frames {
        bodies = bodies.wrapping_add(u32::from(next_frame(ground, NOW)?.bodies));
    }
    Ok(bodies)
}

// The 75 texts of each type take 20, 19, 21 and 22 bytes each, so 31 frames have room for all
// twice, even if 21 bytes are left at the end of each.
#[test]
fn frames_are_filled_with_texts_of_each_form(rt: HostRuntime) -> Result<(), Fail> {
    let alloc = rt.alloc();
    let table = LifeTable::read(alloc, FOUR_FORMS.as_bytes())
        .ok()
        .ok_or("a table")?;
    let mut ground = ground_under(alloc, table);
    for kind in ["METAR", "TAF", "PIREP", "WINDS"] {
        assert_eq!(rt; count_given(alloc, &mut ground, kind, 75, 5)?, 75);
    }
    assert!(rt; bodies_in(&mut ground, 31)? >= 600);
    Ok(())
}

#[test]
fn long_texts_of_one_version_have_1024_file_numbers(rt: HostRuntime) -> Result<(), Fail> {
    let alloc = rt.alloc();
    let mut ground = ground_under(alloc, LifeTable::default_table(alloc)?);
    assert_eq!(rt;
        count_given(alloc, &mut ground, "METAR", 1_024, 600)?,
        1_024
    );
    let steps = [
        Step::Give(NOW, MINUTE, "METAR KSEA ", 600, Answer::NoFile),
        Step::Give(NOW, MINUTE, "METAR KSEA", 0, Answer::Given),
    ];
    assert_eq!(rt; first_wrong(alloc, &mut ground, &steps)?, None);
    Ok(())
}
