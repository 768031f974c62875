//! The blocks of a payload, lent out of it.
ghost use Rattle.std.specs.Prelude.{◌≡◌, ◌+◌, ◌<◌, ◌≤◌, length, replicate, take, drop, slice_get};
ghost use Rattle.std.specs.Prelude.{◌++◌};
ghost use Rattle.radar_core.specs.Keys.{first_high};
ghost use Rattle.radar_core.specs.Radar.{blank_block};
ghost use Rattle.radar_core.specs.Runs.{cells_in};

use crate::bitmap::{count_offsets, offset_at};
use crate::cells::{CELLS, Cells};
use crate::key::BlockKey;
use std::marker::Model;

/// How many blocks a ring has.
pub(crate) const RING: u32 = 450;

/// How many cells there is room for while runs are read: those of a block, and after them those of a longest run.
const CELL_ROOM: usize = 160;

/// The bytes after the front of a record.
#[derive(Clone, Copy, Debug)]
pub(crate) enum Body<'a> {
    /// The runs of one block.
    Runs(&'a [u8]),
    /// The bitmap of the blocks that are named beside the base.
    Bitmap(&'a [u8]),
}

/// The blocks of a payload. It lends the payload: to read a block takes no memory. A contract sees the list of the blocks.
#[derive(Debug, Drop)]
pub struct RadarPart<'a> {
    pub(crate) key: BlockKey,
    pub(crate) body: Body<'a>,
}

impl<'a> Model for RadarPart<'a> {
    ghost use Rattle.std.specs.Prelude.{List};
    ghost use Rattle.radar_core.specs.Radar.{Block};

    ghost Value = { List Block };

    ghost use Rattle.radar_core.specs.Views.{part_blocks, IsBody};

    ghost view = { λ part. part_blocks part.key part.body };

    ghost invariant = { λ part. IsBody part.key part.body };
}

impl<'a> RadarPart<'a> {
    /// How many blocks there are.
    pub fn count(&self) -> u32
        ensures { result ≡ length self.now }
    {
        match self.body {
            Body::Runs(_) => 1,
            Body::Bitmap(bitmap) => count_offsets(bitmap),
        }
    }

    /// The block at a place, counted from 0: by rising offset from the base of an empty record.
    pub fn block(&self, place: u32) -> (BlockKey, Cells)
        requires { place < length self.now }
        ensures { slice_get self.now place ≡ Some result }
    {
        match self.body {
            Body::Runs(runs) => (self.key, cells_of(runs)),
            Body::Bitmap(bitmap) => blank_block(self.key, offset_at(bitmap, place)),
        }
    }
}

/// The block at an offset from the base of an empty record.
fn blank_block(base: BlockKey, offset: u32) -> (BlockKey, Cells)
    requires number { base.number < first_high }
    requires offset { offset < 117 }
    ensures { result ≡ blank_block base offset }
{
    let place = base.number % RING;
    let start = base.number - place;
    let number = start + (place + offset) % RING;
    (BlockKey { number, ..base }, Cells::blank())
}

/// The cells that runs spell. Each run is written as long as a run can be, and the next one over what is too much.
fn cells_of(runs: &[u8]) -> Cells
    requires { length (cells_in runs.now) ≡ 128 }
    ensures { result ≡ cells_in runs.now }
{
    let mut room = [0; CELL_ROOM];
    let mut used = 0;
    for run in runs {
        put_longest(&mut room, used, *run % 8);
        used += usize::from(*run / 8) + 1;
    }
    let mut cells = [0; CELLS];
    cells.copy_from_slice(&room[..CELLS]);
    Cells::of(cells)
}

/// Writes one intensity over the cells of a longest run from a place on.
fn put_longest(room: &mut [u8; 160], place: usize, cell: u8)
    requires { place ≤ 128 }
    ensures { room.new ≡ take place room.old
        ++ (replicate 32 cell ++ drop (place + 32) room.old) }
{
    room[place..place + 32].fill(cell);
}
