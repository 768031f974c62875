//! A map in the order of its keys that can be taken back to a mark, without memory.
#![tactic(auto)]

mod duplicate;
mod end_queue;
mod lasting;
pub mod laws;
mod map;
mod step;

pub use duplicate::Duplicate;
pub use end_queue::EndQueue;
pub use lasting::{Lasting, LastingMap};
pub use map::UndoMap;
