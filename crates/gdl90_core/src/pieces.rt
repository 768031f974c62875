//! What a piece of a stream says.

/// Why a piece between two flags is no message: the first of these that holds of it.
#[derive(Clone, Copy, PartialEq, Eq, Debug)]
pub enum Damage {
    /// A control-escape, read from the left, is not followed by 5D or 5E within the piece.
    BadEscape,
    /// It has fewer than 3 bytes once unescaped.
    Short,
    /// It has more than 1,024 bytes once unescaped.
    TooLong,
    /// Its last two bytes are not the frame check sequence of the rest.
    BadFcs,
}

/// What a piece says.
#[derive(Clone, Copy, PartialEq, Eq, Debug)]
pub enum Framed<'a> {
    /// A message without its frame check sequence, lent by the deframer.
    Message(&'a [u8]),
    /// It is damaged.
    Damaged(Damage),
}
