//! The steps of a workload.

use crate::changes::Changes;
use crate::report_text::ReportText;
use fisb_time::Moment;
use fisb_wire::Numbers;
use radar_core::Cells;

/// A step of a workload.
#[derive(Drop)]
pub enum Step {
    /// A text is given to the ground, whose version is the moment.
    Text {
        moment: Moment,
        text: ReportText,
    },
    /// A block of product 63, scale 0, north, is given with its cells. Its version is the moment.
    Block {
        moment: Moment,
        number: u32,
        cells: Cells,
    },
    /// Blocks of product 63, scale 0, north, are given as blank. Their version is the moment.
    Blanks {
        moment: Moment,
        numbers: Numbers,
    },
    /// A frame is sent in a slot below 32.
    Turn {
        moment: Moment,
        slot: u8,
    },
    /// The frame that was sent last is heard, with these changes.
    Hear {
        moment: Moment,
        changes: Changes,
    },
    /// A picture is taken.
    Show {
        moment: Moment,
    },
}
