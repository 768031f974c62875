//! Moments, and the time field of a FIS-B APDU (RTCA DO-358): what it shows of a moment, and which
//! moment it names where it is received.
#![tactic(auto)]

mod calendar;
mod form;
pub mod laws;
mod moment;
mod naming;

pub use form::{TimeFields, TimeForm, fields_of, shows};
pub use moment::Moment;
pub use naming::resolve;
