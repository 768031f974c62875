//! From the bytes of a payload to its reports.
ghost use Rattle.std.specs.Prelude.{◌≡◌, IfOk};
ghost use Rattle.dlac_text.specs.Reports.{reports_of};

use crate::reader::Reader;
use crate::report_text::Report;
use std::alloc::{AllocError, Global};

// The most room with which a text begins; a longer one grows.
const MOST_FIRST_ROOM: usize = 64;

/// The reports of a payload, in their order: the texts between the codes that end a report, the empty ones left out.
///
/// Any bytes are read: bits after the last whole six, and a TAB that is the last code, stand for nothing.
///
/// # Errors
///
/// `AllocError` where memory runs out.
pub fn reports(alloc: Global, payload: &[u8]) -> Result<Vec<Report>, AllocError>
    ensures { IfOk result (λ found. found.items ≡ reports_of payload.now) }
{
    let mut reader = Reader::new(alloc, first_room(payload))?;
    let mut rest = payload;
    while let [x, y, z, more @ ..] = rest {
        reader.take_three(*x, *y, *z)?;
        rest = more;
    }
    reader.take_last(rest)?;
    reader.finish()
}

/// The room with which a text begins: that of all codes of the payload, or what many a report
/// needs.
fn first_room(payload: &[u8]) -> usize {
    (payload.len() / 3 * 4 + 2).min(MOST_FIRST_ROOM)
}
