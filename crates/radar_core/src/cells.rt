//! The cells of a block.
ghost use Rattle.std.specs.Prelude.{◌≡◌, ◌<◌, ◌↔◌, All, IsSome, IfSome, replicate, slice_index};
ghost use Rattle.radar_core.specs.Cells.{IsCells, blank_cells};

use std::marker::Model;

/// How many cells a block has.
pub(crate) const CELLS: usize = 128;

/// The 128 cells of a block, each an intensity from 0 to 7: four rows of 32 from the north-west corner, row by row from
/// the north, each row from the west. A contract sees them as the list.
#[derive(Clone, Copy, Debug, PartialEq, Eq)]
pub struct Cells {
    cells: [u8; 128],
}

impl Model for Cells {
    ghost use Rattle.std.specs.Prelude.{ℕ, List};
    ghost use Rattle.radar_core.specs.Cells.{IsCells};

    ghost Value = { List ℕ };

    ghost view = { λ c. c.cells };

    ghost invariant = { λ c. IsCells c.cells };

    ghost inverse = { λ cells. record { cells = cells } };
}

impl Cells {
    /// These cells, or `None` exactly where one of them is over 7.
    pub fn new(cells: [u8; 128]) -> Option<Cells>
        ensures exactly { IsSome result ↔ All (λ cell. cell < 8) cells }
        ensures value { IfSome result (λ made. made ≡ cells) }
    {
        for cell in &cells {
            if *cell > 7 {
                return None;
            }
        }
        Some(Cells::of(cells))
    }

    /// The cells of an array of which none is over 7.
    pub(crate) fn of(cells: [u8; 128]) -> Cells
        requires { All (λ cell. cell < 8) cells }
        ensures { result ≡ cells }
    {
        Cells { cells }
    }

    /// The cell at a place, counted from 0.
    pub fn at(&self, place: usize) -> u8
        requires { place < 128 }
        ensures value { result ≡ slice_index self.now place }
        ensures cells { IsCells self.now }
    {
        self.cells[place]
    }

    /// 128 cells of intensity 0.
    pub fn blank() -> Cells
        ensures { result ≡ blank_cells }
    {
        Cells::of(zeros())
    }
}

/// An intensity of 0 for each cell.
fn zeros() -> [u8; 128]
    ensures { result ≡ replicate 128 0 }
{
    [0; 128]
}
