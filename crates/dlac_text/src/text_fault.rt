//! Why a text is refused.

use thiserror::Error;

/// Why a text is not sent.
#[derive(Clone, Copy, Debug, PartialEq, Eq, Error)]
pub enum TextFault {
    /// A character has no DLAC code; `place` is the least place of such a character, in characters from 0.
    #[error("the character at place {place} has no DLAC code")]
    BadCharacter { place: u32 },
    /// The text has more than 16,384 characters.
    #[error("the text has more than 16384 characters")]
    TooLong,
    /// Memory ran out.
    #[error("no memory is left")]
    NoMemory,
}
