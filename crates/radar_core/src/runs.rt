//! The run record of a block.
ghost use Rattle.std.specs.Prelude.{◌≡◌, ◌+◌, ◌<◌, ◌≤◌, ◌^◌, true, false, [], ◌∷◌, ◌++◌, length};
ghost use Rattle.std.specs.Prelude.{map, take, drop, slice_index, Ok};
ghost use Rattle.radar_core.specs.Cells.{IsCells};
ghost use Rattle.radar_core.specs.Keys.{FitsKey, front_bytes};
ghost use Rattle.radar_core.specs.Runs.{run_byte, longest_runs, run_record};
ghost use Rattle.radar_core.specs.Radar.{radar_blocks};

use crate::cells::{CELLS, Cells};
use crate::key::BlockKey;
use crate::run::{LONGEST, Run};

/// The bytes before the runs or the bitmap of a record.
pub(crate) const FRONT: usize = 3;

/// Writes the run record of a block, with the fewest runs, and leaves the rest of the room. The answer is its length.
pub fn write_runs(key: &BlockKey, cells: &Cells, room: &mut [u8; 131]) -> usize
    requires { FitsKey key.now }
    ensures size { result ≡ length (run_record key.now cells.now) }
    ensures record { take result room.new ≡ run_record key.now cells.now }
    ensures rest { drop result room.new ≡ drop result room.old }
    ensures reads_back { radar_blocks key.now.product (take result room.new)
        ≡ Ok ((key.now, cells.now) ∷ []) }
{
    put_front(true, key, room);
    put_runs(cells, room)
}

/// Writes the front of a record.
pub(crate) fn put_front(is_run: bool, key: &BlockKey, room: &mut [u8])
    requires key { FitsKey key.now }
    requires room { 3 ≤ length room.old }
    ensures { room.new ≡ front_bytes is_run key.now ++ drop 3 room.old }
{
    room[..FRONT].copy_from_slice(&front_of(is_run, key));
}

/// The front of a record.
fn front_of(is_run: bool, key: &BlockKey) -> [u8; 3]
    requires { FitsKey key.now }
    ensures { result ≡ front_bytes is_run key.now }
{
    let flags = u8::from(is_run) * 128 + u8::from(key.south) * 64 + key.scale * 16;
    let [_, high, middle, low] = key.number.to_be_bytes();
    [flags + high, middle, low]
}

/// Writes the runs of cells after the front of a record. The answer is the place after them.
fn put_runs(cells: &Cells, room: &mut [u8; 131]) -> usize
    ensures size { result ≡ 3 + length (longest_runs cells.now) }
    ensures runs { take result room.new ≡ take 3 room.old ++ map run_byte (longest_runs cells.now) }
    ensures rest { drop result room.new ≡ drop result room.old }
    ensures cells { IsCells cells.now }
{
    let mut used = FRONT;
    let mut run = Run {
        length: 1,
        intensity: cells.at(0),
    };
    for place in 1..CELLS {
        let cell = cells.at(place);
        if cell == run.intensity && run.length < LONGEST {
            run.length += 1;
        } else {
            room[used] = run.byte();
            used += 1;
            run = Run {
                length: 1,
                intensity: cell,
            };
        }
    }
    room[used] = run.byte();
    used + 1
}
