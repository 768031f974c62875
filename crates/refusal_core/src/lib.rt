//! The reasons for which a line of a script is refused, and the text of a refusal.
#![tactic(auto)]

mod printing;
mod reason;

pub use printing::print_refused;
pub use reason::Reason;
