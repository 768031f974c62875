//! The workload of `make`: reports, radar, turns, hearings and pictures, drawn from a number. It is a
//! list of steps, and is handed out step by step.
#![tactic(auto)]

mod changes;
mod drawing;
mod draws;
pub mod laws;
mod progress;
mod report_text;
mod step;
#[cfg(test)]
mod tests;
mod workload;

pub use changes::Changes;
pub use report_text::ReportText;
pub use step::Step;
pub use workload::Workload;
