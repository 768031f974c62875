//! What a link promises, and the law that what is received is that: laws alone, above ground and
//! receiver.
#![tactic(auto)]

pub mod laws;
