//! The lines of a script: what one line says, or that it is of no line's form; and the texts that are written.
#![tactic(auto)]

mod fields;
mod frame_text;
mod hearing;
mod kinds;
pub mod laws;
mod picture_text;
mod radar;
mod reading;
mod script_line;
mod wrong;

pub use fields::read_number;
pub use frame_text::{print_heard, print_lost, print_noapp, print_sent};
pub use picture_text::print_picture;
pub use reading::read_line;
pub use refusal_core::{Reason, print_refused};
pub use script_line::{Line, LineFault};
pub use wrong::Wrong;
