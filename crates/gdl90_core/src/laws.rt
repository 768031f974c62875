//! Laws of the definitions, for the crates above: each is the contract of a function that does
//! nothing.
ghost use Rattle.gdl90_core.specs.Laws.{AnswersInOrder, MessagesReadBack, OneReading};
ghost use Rattle.gdl90_core.specs.Laws.{OneRemainder, PiecesGoOn};

/// The law that a message has one remainder by x^16 + x^12 + x^5 + 1: that of the long division.
#[inline]
pub fn one_remainder()
    ensures { OneRemainder }
{}

/// The law that a stream has the same pieces however it is cut: a byte more brings the piece that
/// it ends, and changes no other.
#[inline]
pub fn pieces_go_on()
    ensures { PiecesGoOn }
{}

/// The law that the answers to a stream's bytes, in order, are what its pieces say.
#[inline]
pub fn answers_in_order()
    ensures { AnswersInOrder }
{}

/// The law that a piece between two flags is one message or has one first damage.
#[inline]
pub fn one_reading()
    ensures { OneReading }
{}

/// The law that framed messages, one after another, are read back as these messages alone.
#[inline]
pub fn messages_read_back()
    ensures { MessagesReadBack }
{}
