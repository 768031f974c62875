ghost use Rattle.std.specs.Prelude.{◌≡◌, ◌<◌, ◌≤◌};
ghost use Rattle.radar_core.specs.Keys.{first_high};
ghost use Rattle.radar_core.specs.Blanks.{IsGroup};

use radar_core::{
    BlockKey, Cells, RadarFault, group_blanks, order_of_block_keys, read_radar, write_blank,
    write_runs,
};
use std::cmp::Ordering;
use std::process::Abort;
use std::test::Fail;

/// The northern block of this number, of product 63 and scale 0.
fn block(number: u32) -> BlockKey
    ensures scale { result.scale ≤ 2 }
    ensures number { result.number ≡ number }
{
    BlockKey {
        product: 63,
        scale: 0,
        south: false,
        number,
    }
}

/// The fault of a payload, or `None` where it has blocks.
fn fault(payload: &[u8]) -> Option<RadarFault> {
    read_radar(63, payload).err()
}

/// Whether an empty record names the numbers, in their order, and no others.
fn names(payload: &[u8], numbers: &[u32]) -> bool {
    let Ok(part) = read_radar(63, payload) else {
        return false;
    };
    if part.count() as usize != numbers.len() {
        return false;
    }
    let count = part.count();
    for (place, number) in numbers.iter().enumerate() {
        let place = place as u32;
        if place < count && part.block(place) != (block(*number), Cells::blank()) {
            return false;
        }
    }
    true
}

/// Whether the cells have this intensity before a place, and another from there on.
fn changes_at(cells: &Cells, change: usize, before: u8, after: u8) -> bool {
    for place in 0..128 {
        let wanted = if place < change { before } else { after };
        if cells.at(place) != wanted {
            return false;
        }
    }
    true
}

/// Writes the runs of a block whose cells change once, and reads them back.
fn written_runs(rt: &impl Abort, change: usize, record: &[u8]) {
    let mut cells = [3; 128];
    for (place, cell) in cells.iter_mut().enumerate() {
        if place >= change {
            *cell = 5;
        }
    }
    let cells = Cells::new(cells).expect(rt, "intensities below 8");
    let mut room = [9; 131];
    let size = write_runs(&block(100_000), &cells, &mut room);
    let written = room.get(..size).expect(rt, "the record is in the room");
    assert!(rt; written == record);
    assert!(rt; room[130] == 9);
    let part = read_radar(63, written).expect(rt, "a run record");
    assert_eq!(rt; part.count(), 1);
    let (key, read) = part.block(0);
    assert!(rt; key == block(100_000));
    assert!(rt; read == cells);
    assert!(rt; changes_at(&read, change, 3, 5));
}

#[test]
fn equal_cells_are_four_runs(rt: HostRuntime) {
    written_runs(&rt, 128, &[0x81, 0x86, 0xa0, 0xfb, 0xfb, 0xfb, 0xfb]);
}

#[test]
fn runs_cross_rows(rt: HostRuntime) {
    written_runs(&rt, 33, &[0x81, 0x86, 0xa0, 0xfb, 0x03, 0xfd, 0xfd, 0xf5]);
}

#[test]
fn empty_records_name_their_blocks(rt: HostRuntime) {
    assert!(rt;
        names(
            &[0x01, 0x86, 0xa0, 0x12, 0x01],
            &[100_000, 100_001, 100_005]
        )
    );
    assert!(rt; names(&[0x01, 0x86, 0xa0, 0x00], &[100_000]));
    assert!(rt; names(&[0x01, 0x86, 0xa0, 0xf0, 0xff], &[100_000]));
    assert!(rt; names(&[0x01, 0x87, 0xfd, 0x11], &[100_349, 99_900]));
}

#[test]
fn the_greatest_offset_is_116(rt: HostRuntime) {
    let mut payload = [0; 18];
    payload[2] = 100;
    payload[3] = 0x0f;
    payload[17] = 0x80;
    assert!(rt; names(&payload, &[100, 216]));
    payload[17] = 0x00;
    assert!(rt; names(&payload, &[100]));
}

/// Writes the empty record of a group, and reads it back.
fn written_blank(rt: &impl Abort, base: u32, further: &[u32], record: &[u8])
    requires base { base < first_high }
    requires group { IsGroup base further.now }
{
    let mut room = [9; 18];
    let size = write_blank(&block(base), further, &mut room);
    let written = room.get(..size).expect(rt, "the record is in the room");
    assert!(rt; written == record);
    assert!(rt; room[17] == 9);
    let part = read_radar(63, written).expect(rt, "an empty record");
    assert!(rt; part.count() as usize == 1 + further.len());
}

#[test]
fn an_empty_record_is_written(rt: HostRuntime) {
    written_blank(&rt, 100_000, &[], &[0x01, 0x86, 0xa0, 0x01]);
    written_blank(&rt, 100_001, &[100_005], &[0x01, 0x86, 0xa1, 0x81]);
    let further = [100_001, 100_005];
    written_blank(&rt, 100_000, &further, &[0x01, 0x86, 0xa0, 0x12, 0x01]);
}

#[test]
fn payloads_are_refused(rt: HostRuntime) {
    assert!(rt; fault(&[0x81, 0x86]) == Some(RadarFault::Short));
    assert!(rt; fault(&[0xb1, 0x86, 0xa0]) == Some(RadarFault::Short));
    assert!(rt; fault(&[0xb1, 0x86, 0xa0, 0xfb]) == Some(RadarFault::BadScale));
    let cells_127 = [0x81, 0x86, 0xa0, 0xfb, 0xfb, 0xfb, 0xf3];
    assert!(rt; fault(&cells_127) == Some(RadarFault::RunsNot128));
    let cells_129 = [0x81, 0x86, 0xa0, 0xfb, 0xfb, 0xfb, 0xfb, 0x03];
    assert!(rt; fault(&cells_129) == Some(RadarFault::RunsNot128));
    assert!(rt; fault(&[0x06, 0x2e, 0x08, 0x01]) == Some(RadarFault::HighEmpty));
    assert!(rt; fault(&[0x01, 0x86, 0xa0, 0x13, 0x01]) == Some(RadarFault::BadBitmap));
}

#[test]
fn groups_end_117_further_and_at_a_ring(rt: HostRuntime) -> Result<(), Fail> {
    let near = group_blanks(rt.alloc(), &[100_000, 100_001, 100_005])?;
    assert_eq!(rt; near.len(), 1);
    assert!(rt; near.at(0) == [100_000, 100_001, 100_005].as_slice());
    let far = group_blanks(rt.alloc(), &[99_900, 100_016, 100_017])?;
    assert_eq!(rt; far.len(), 2);
    assert!(rt; far.at(0) == [99_900, 100_016].as_slice());
    assert!(rt; far.at(1) == [100_017].as_slice());
    let rings = group_blanks(rt.alloc(), &[449, 450])?;
    assert_eq!(rt; rings.len(), 2);
    Ok(())
}

#[test]
fn an_intensity_over_7_is_refused(rt: HostRuntime) {
    assert!(rt; Cells::new([7; 128]).is_some());
    assert!(rt; Cells::new([8; 128]).is_none());
}

#[test]
fn north_comes_before_south(rt: HostRuntime) {
    let north = block(7);
    let south = BlockKey {
        south: true,
        number: 6,
        ..north
    };
    assert_eq!(rt; order_of_block_keys(&north, &south), Ordering::Less);
    assert!(rt; north < south);
}
