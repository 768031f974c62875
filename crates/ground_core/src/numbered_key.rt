//! A report's key as a map has it.
ghost use Rattle.std.specs.Prelude.{◌≡◌, IfOk};
ghost use Rattle.ground_core.specs.PlaceNumber.{place_number};

use std::alloc::{AllocError, Global};
use std::rc::Rc;
use text_reports::{TextKey, Word};

/// A report's key after a number made of its place. Most keys have their type in common with many others, and so a map
/// tells them apart by one comparison of numbers. Copies share the key.
#[derive(Drop, PartialEq, Eq, PartialOrd, Ord)]
pub(crate) struct NumberedKey {
    number: u64,
    key: Rc<TextKey>,
    ghost numbered: { number ≡ place_number key.value.place },
}

impl NumberedKey {
    /// A key and the number made of its place.
    pub(crate) fn new(alloc: Global, key: TextKey) -> Result<NumberedKey, AllocError>
        ensures { IfOk result (λ made. made.key.value ≡ key) }
    {
        let number = place_number(&key.place);
        let Ok(key) = Rc::new(alloc, key) else {
            return Err(AllocError);
        };
        Ok(NumberedKey { number, key })
    }

    /// The same key again.
    pub(crate) fn copy(&self) -> Result<NumberedKey, AllocError>
        ensures { IfOk result (λ copy. copy.key.value ≡ self.now.key.value) }
    {
        Ok(NumberedKey {
            number: self.number,
            key: self.key.clone()?,
        })
    }
}

/// A number made of a place: its bytes as the digits of a number to the base 31, by the last 64 bits.
fn place_number(place: &Word) -> u64
    ensures { result ≡ place_number place.now }
{
    place.all().as_bytes().iter().fold(0u64, |number, byte| {
        number.wrapping_mul(31).wrapping_add(u64::from(*byte))
    })
}
