//! What names a report of weather: its type, its place, and for some types a third word.
#![tactic(auto)]

mod cut;
mod key;
mod word;

pub use key::{KeyFault, TextKey, key_of, order_of_text_keys};
pub use word::Word;
