//! The way in and out of the programs: sources of bytes, sinks of bytes, and two small list types.
#![tactic(auto)]

mod copying;
mod ends;
mod faithful;
mod lists;
mod memory;
mod pieces;
mod remaining;
mod standard;

pub use ends::{Failed, Sink, Source};
pub use faithful::{FaithfulSink, FaithfulSource};
pub use lists::{Bytes, Numbers};
pub use memory::{MemorySink, MemorySource};
pub use pieces::PieceSource;
pub use standard::{StdSink, StdSource};
