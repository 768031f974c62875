//! Frames of the uplink on the air: a payload of 432 bytes in six code words of 92 bytes, woven byte by byte.
#![tactic(auto)]

mod blocks;
mod frame;
pub mod laws;

pub use frame::{FRAME_BYTES, Lost, unweave, weave};
