//! A run of cells.
ghost use Rattle.std.specs.Prelude.{◌≡◌, ◌<◌, ◌≤◌};
ghost use Rattle.radar_core.specs.Runs.{run_byte};

/// Cells of one intensity side by side.
#[derive(Clone, Copy, Debug)]
pub(crate) struct Run {
    /// How many cells, 1 to 32.
    pub(crate) length: u8,
    /// The intensity, 0 to 7.
    pub(crate) intensity: u8,
}

/// How many cells a run can have.
pub(crate) const LONGEST: u8 = 32;

impl Run {
    /// The byte that spells the run: five bits of its length less 1, three of its intensity.
    pub(crate) fn byte(self) -> u8
        requires some { 1 ≤ self.length }
        requires length { self.length ≤ 32 }
        requires intensity { self.intensity < 8 }
        ensures { result ≡ run_byte self }
    {
        (self.length - 1) * 8 + self.intensity
    }
}
