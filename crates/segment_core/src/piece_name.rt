//! What names a piece that is kept.
ghost use Rattle.std.specs.Prelude.{◌≡◌, IfOk};
ghost use Rattle.segment_core.specs.Kept.{with_number, piece_name};
ghost use Rattle.segment_core.specs.Views.{arrival_view};

use crate::arrived::Arrived;
use apdu_core::Seg;
use fisb_time::Moment;
use std::alloc::{AllocError, Global};
use undo_map::Duplicate;
use uplink_frame::StationId;

/// A file, and the number of one of its segments.
#[derive(Clone, Copy, Debug, PartialEq, Eq, PartialOrd, Ord)]
pub struct PieceName {
    pub(crate) station: StationId,
    pub(crate) product: u16,
    pub(crate) version: Moment,
    pub(crate) file: u16,
    pub(crate) count: u16,
    pub(crate) number: u16,
}

impl Duplicate for PieceName {
    fn duplicate(&self, _alloc: Global) -> Result<PieceName, AllocError>
        ensures { IfOk result (λ copy. copy ≡ self.now) }
    {
        Ok(self.with_number(self.number))
    }
}

impl PieceName {
    /// The name of an arrival with these fields.
    pub(crate) fn of(arrived: &Arrived<'_>, seg: Seg) -> PieceName
        ensures { result ≡ piece_name (arrival_view arrived.now) seg }
    {
        PieceName {
            station: arrived.station,
            product: arrived.product,
            version: arrived.version,
            file: seg.file,
            count: seg.count,
            number: seg.number,
        }
    }

    /// The name of another segment of the file.
    pub(crate) fn with_number(&self, number: u16) -> PieceName
        ensures { result ≡ with_number self.now number }
    {
        PieceName {
            station: self.station,
            product: self.product,
            version: self.version,
            file: self.file,
            count: self.count,
            number,
        }
    }
}
