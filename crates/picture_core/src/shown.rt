//! What a picture shows under a key.
ghost use Rattle.std.specs.Prelude.{◌≡◌, IfOk};

use dlac_text::Report;
use radar_core::Cells;
use std::alloc::{AllocError, Global};

/// What a picture shows under a key.
#[derive(Debug, Drop)]
pub enum Shown {
    /// The cells of a block of radar.
    Cells(Cells),
    /// The text of a report.
    Text(Report),
}

impl Shown {
    /// The same once more.
    ///
    /// # Errors
    ///
    /// Where memory runs out.
    pub fn copy(&self, alloc: Global) -> Result<Shown, AllocError>
        ensures { IfOk result (λ copy. copy ≡ self.now) }
    {
        match self {
            Shown::Cells(cells) => Ok(Shown::Cells(*cells)),
            Shown::Text(report) => Ok(Shown::Text(report.copy(alloc)?)),
        }
    }
}
