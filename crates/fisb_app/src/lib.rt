//! The commands.
#![tactic(auto)]

mod air_outcome;
mod command;
mod counts;
mod ear;
mod ground_alone;
mod hearing;
mod in_order;
pub mod laws;
mod line_kinds;
mod link;
mod make;
mod making;
mod outcome;
mod party;
mod receiver_alone;
mod relay;
mod sender;
mod sending;
mod sent_frame;
mod stopping;
mod top;
mod unheard;

pub use command::Command;
pub use ear::Ear;
pub use make::{run_make, run_make_over};
pub use run_core::Status;
pub use script_core::Reason;
pub use top::{run, run_gdl, run_ground, run_link, run_link_over, run_receive};
