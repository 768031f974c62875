//! What a picture of the weather is: of each key the newest version whose life has not passed.
#![tactic(auto)]

mod entries;
mod entry;
mod kept;
mod key;
pub mod laws;
mod picture;
mod shown;

pub use entries::Entries;
pub use entry::Entry;
pub use key::{Key, order_of_keys};
pub use picture::Picture;
pub use shown::Shown;
