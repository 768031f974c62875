//! The application protocol data unit of FIS-B (RTCA DO-358): a header of bit fields, and a payload.
#![tactic(auto)]

mod apdu;
mod bits;
mod fault;
pub mod laws;
mod reading;
mod sizes;
mod writing;

pub use apdu::{Apdu, Seg};
pub use fault::ApduFault;
pub use reading::{product_of, read_apdu};
pub use writing::write_apdu;
