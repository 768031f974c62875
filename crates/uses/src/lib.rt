//! Three callers of the libraries, each proved: a receiver, a ground, and a payload that goes through the air.
#![tactic(auto)]

mod air;
mod ground;
mod receiver;
#[cfg(test)]
mod tests;

pub use air::payload_through_air;
pub use ground::frame_of_report;
pub use receiver::picture_after;
