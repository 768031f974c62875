//! Payloads that are cut into segments, and joined again from what arrives.
#![tactic(auto)]

mod arrived;
mod cutting;
mod held;
mod joiner;
pub mod laws;
mod piece_name;
mod pieces;
mod sizes;

pub use arrived::{Arrived, Longest, Taken};
pub use cutting::{is_segmented, part_at, part_count};
pub use joiner::Joiner;
pub use pieces::{Pieces, split};
pub use sizes::BODY_LIMIT;
