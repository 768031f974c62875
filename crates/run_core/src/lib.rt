//! The run of a command over a script: reading in pieces, acting on each line as soon as its end
//! was read, writing what it gives, and every way in which that ends. What the lines mean is the
//! command's.
#![tactic(auto)]

mod acting;
mod actor;
mod input;
pub mod laws;
mod lines;
mod output;
mod search;
mod status;
mod stop;
mod top;

pub use actor::{Actor, Given};
pub use output::write_all;
pub use status::Status;
pub use stop::Stop;
pub use top::run;
