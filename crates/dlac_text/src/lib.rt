//! Text in the six-bit DLAC code of FIS-B (RTCA DO-358): a text as the payload that is sent, and the reports that a
//! payload holds.
#![tactic(auto)]

mod alphabet;
mod decoding;
mod draft;
mod encoding;
pub mod laws;
mod printing;
mod reader;
mod report_text;
mod six_bits;
mod text_fault;

pub use decoding::reports;
pub use encoding::encode_text;
pub use printing::{plain, unplain};
pub use report_text::Report;
pub use text_fault::TextFault;
