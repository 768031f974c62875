//! What a line says, and why one is not read.

use crate::wrong::Wrong;
use fisb_time::Moment;
use fisb_wire::Numbers;
use radar_core::{BlockKey, Cells};
use thiserror::Error;
use uplink_frame::StationId;
use uplink_weave::FRAME_BYTES;

/// What a line of a script says.
#[derive(Drop)]
pub enum Line {
    /// An empty line.
    Nothing,
    /// The station, of a valid position: latitude below 2^23, longitude below 2^24 and site below 16, as an uplink header
    /// has them.
    Station(StationId),
    /// A text to be given to the ground: when, its version, and the text that REPORT shows.
    Text {
        moment: Moment,
        version: Moment,
        report: String,
    },
    /// The cells of a block to be given to the ground: a product below 2,048, a scale below 4, a number below 2^20.
    Radar {
        moment: Moment,
        version: Moment,
        key: BlockKey,
        cells: Cells,
    },
    /// Blocks of intensity 0 to be given to the ground, in the same ranges: one number at least, in any order.
    Blank {
        moment: Moment,
        version: Moment,
        product: u16,
        scale: u8,
        south: bool,
        numbers: Numbers,
    },
    /// A frame is sent in a slot below 32.
    Turn {
        moment: Moment,
        slot: u8,
    },
    /// A frame is heard: the number of the frame, counted from 0 in the order of sending, and what is heard wrong of it.
    Hear {
        moment: Moment,
        frame: u32,
        wrong: Wrong,
    },
    /// The bytes of a frame as they are heard.
    Rx {
        moment: Moment,
        air: [u8; FRAME_BYTES],
    },
    /// The picture is asked for.
    Show {
        moment: Moment,
    },
}

/// Why a line is not read.
#[derive(Clone, Copy, Debug, PartialEq, Eq, Error)]
pub enum LineFault {
    /// It is of no line's form.
    #[error("the line is of no form")]
    Syntax,
    /// Memory ran out.
    #[error("no memory is left")]
    NoMemory,
}
