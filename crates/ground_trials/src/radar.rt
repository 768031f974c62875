//! Trials of radar.
use crate::steps::{Answer, Area, MINUTE, NOW, REGIONAL, Step, first_wrong_of_new};
use std::test::Fail;

#[test]
fn a_block_and_a_group_of_empty_blocks_are_sent(rt: HostRuntime) -> Result<(), Fail> {
    // Four runs of 32 cells of intensity 3, and the empty blocks 100,001 and 100,005 in one record.
    let data = &[
        0x05, 0x80, 0x00, 0xFC, 0x58, 0xD0, 0x81, 0x86, 0xA0, 0xFB, 0xFB, 0xFB, 0xFB, 0x04, 0x00,
        0x00, 0xFC, 0x58, 0xD0, 0x01, 0x86, 0xA1, 0x81, 0x00,
    ];
    let steps = [
        Step::Cells(MINUTE, REGIONAL, 100_000, 3, Answer::Given),
        Step::Blanks(MINUTE, REGIONAL, &[100_001, 100_005], Answer::Given),
        Step::Data(NOW, 2, 23, data),
        Step::Data(NOW, 2, 23, data),
    ];
    assert_eq!(rt; first_wrong_of_new(rt.alloc(), &steps)?, None);
    Ok(())
}

#[test]
fn empty_blocks_are_sent_until_each_is_superseded(rt: HostRuntime) -> Result<(), Fail> {
    let group = &[
        0x04, 0x00, 0x00, 0xFC, 0x58, 0xD0, 0x01, 0x86, 0xA1, 0x81, 0x05, 0x80, 0x00, 0xFC, 0x58,
        0xE0, 0x81, 0x86, 0xA1,
    ];
    let newer = &[
        0x05, 0x80, 0x00, 0xFC, 0x58, 0xE0, 0x81, 0x86, 0xA1, 0xF8, 0xF8, 0xF8, 0xF8, 0x04, 0x00,
        0x00, 0xFC, 0x58, 0xE0, 0x01, 0x86, 0xA5, 0x01, 0x00,
    ];
    let steps = [
        Step::Blanks(MINUTE, REGIONAL, &[100_001, 100_005], Answer::Given),
        Step::Cells(MINUTE + 60, REGIONAL, 100_001, 0, Answer::Given),
        Step::Data(NOW, 2, 23, group),
        Step::Data(NOW, 2, 23, group),
        Step::Blanks(MINUTE + 60, REGIONAL, &[100_005], Answer::Given),
        Step::Data(NOW, 2, 23, newer),
        Step::Data(NOW, 2, 23, newer),
    ];
    assert_eq!(rt; first_wrong_of_new(rt.alloc(), &steps)?, None);
    Ok(())
}

#[test]
fn empty_blocks_that_are_far_apart_are_several_items(rt: HostRuntime) -> Result<(), Fail> {
    // Block 100,017 is 117 further than 99,900. The bit of 116 further stands in the fifteenth byte
    // of the first bitmap.
    let first = &[
        0x0B, 0x00, 0x00, 0xFC, 0x58, 0xD0, 0x01, 0x86, 0x3C, 0x0F, 0x00, 0x00, 0x00, 0x00, 0x00,
        0x00, 0x00, 0x00, 0x00, 0x00, 0x00, 0x00, 0x00, 0x80, 0x04, 0x00, 0x00, 0xFC, 0x58, 0xD0,
        0x01, 0x86, 0xB1, 0x01, 0x00,
    ];
    let steps = [
        Step::Blanks(MINUTE, REGIONAL, &[99_900, 100_016, 100_017], Answer::Given),
        Step::Cells(MINUTE, REGIONAL, 100_016, 1, Answer::NotNewer(MINUTE)),
        Step::Data(NOW, 2, 34, first),
    ];
    assert_eq!(rt; first_wrong_of_new(rt.alloc(), &steps)?, None);
    Ok(())
}

#[test]
fn radar_is_refused_for_its_first_fault(rt: HostRuntime) -> Result<(), Fail> {
    let steps = [
        Step::Give(NOW, MINUTE, "METAR KSEA", 0, Answer::Given),
        Step::Cells(MINUTE, Area(65, 3), 1_048_576, 1, Answer::Unlisted),
        Step::Blanks(MINUTE, Area(413, 3), &[], Answer::Unlisted),
        Step::Cells(MINUTE + 1, Area(63, 3), 1, 1, Answer::BadBlock),
        Step::Cells(MINUTE, Area(64, 2), 1_048_576, 1, Answer::BadBlock),
        Step::Cells(MINUTE, Area(64, 2), 1_048_575, 1, Answer::Given),
        Step::Blanks(MINUTE, Area(64, 3), &[1], Answer::BadBlock),
        Step::Blanks(MINUTE, Area(64, 2), &[1, 405_000], Answer::BadBlock),
        Step::Blanks(MINUTE, Area(64, 2), &[1, 404_999], Answer::Given),
        Step::Blanks(MINUTE, REGIONAL, &[], Answer::BadBlock),
        Step::Blanks(MINUTE, REGIONAL, &[1, 2, 2], Answer::BadBlock),
        Step::Blanks(MINUTE + 1, REGIONAL, &[1], Answer::Coarse),
        Step::Cells(MINUTE + 120, REGIONAL, 1, 1, Answer::Ahead),
        Step::Blanks(MINUTE - 1_200, REGIONAL, &[1], Answer::Expired),
        Step::Give(NOW + 1, MINUTE, "METAR KBFI", 0, Answer::Given),
        Step::Cells(MINUTE, REGIONAL, 1, 1, Answer::Clock(NOW + 1)),
    ];
    assert_eq!(rt; first_wrong_of_new(rt.alloc(), &steps)?, None);
    Ok(())
}

#[test]
fn the_first_number_that_is_not_older_is_told(rt: HostRuntime) -> Result<(), Fail> {
    let steps = [
        Step::Cells(MINUTE - 60, REGIONAL, 100_000, 1, Answer::Given),
        Step::Cells(MINUTE, REGIONAL, 100_001, 1, Answer::Given),
        Step::Cells(MINUTE + 60, REGIONAL, 100_002, 1, Answer::Given),
        Step::Blanks(
            MINUTE,
            REGIONAL,
            &[100_000, 100_001, 100_002],
            Answer::NotNewer(MINUTE),
        ),
        Step::Blanks(
            MINUTE,
            REGIONAL,
            &[100_000, 100_002],
            Answer::NotNewer(MINUTE + 60),
        ),
    ];
    assert_eq!(rt; first_wrong_of_new(rt.alloc(), &steps)?, None);
    Ok(())
}

#[test]
fn one_update_has_1024_empty_blocks_at_most(rt: HostRuntime) -> Result<(), Fail> {
    let steps = [
        Step::Many(MINUTE, 1_025, Answer::BadBlock),
        Step::Many(MINUTE, 1_024, Answer::Given),
        Step::Many(MINUTE, 1_024, Answer::NotNewer(MINUTE)),
    ];
    assert_eq!(rt; first_wrong_of_new(rt.alloc(), &steps)?, None);
    Ok(())
}
