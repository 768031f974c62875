//! Laws of the definitions, for the crates above: each is the contract of a function that does nothing.
ghost use Rattle.rs_code.specs.Laws.{CountsDifferences, HasCodeWordTest, HasMinimumDistance};
ghost use Rattle.rs_code.specs.Laws.{HasOneEncoded, HasOneNearest, HaveDistances, IsCorrected};

use gf256_core::UatTables;
use gf256_core::laws::field_laws;
use poly256::laws::degree_laws;

/// The law that two different code words differ in at least one place more than the code has roots.
#[inline]
pub fn minimum_distance()
    ensures { HasMinimumDistance }
{
    field_laws::<UatTables>()
}

/// The same law at the codes of UAT: in how many places two code words of an uplink block, of a basic and of a long ADS-B
/// message differ at least.
#[inline]
pub fn distances()
    ensures { HaveDistances }
{
    minimum_distance()
}

/// The laws of the number of places in which words differ: of one word, and of words that are the same outside a window.
#[inline]
pub fn differences_laws()
    ensures { CountsDifferences }
{}

/// The law that at most one code word is near a word.
#[inline]
pub fn one_nearest()
    ensures { HasOneNearest }
{
    field_laws::<UatTables>()
}

/// The law that the test of a code word, a function of the definitions, tells code words from all other words.
#[inline]
pub fn code_word_test()
    ensures { HasCodeWordTest }
{}

/// The law that one word alone is a code word and begins with a message: the one that the definition `encoded` gives.
#[inline]
pub fn one_encoded()
    ensures { HasOneEncoded }
{
    field_laws::<UatTables>();
    degree_laws()
}

/// The law that the definition `corrected` gives the code word near a word, and none exactly where none is near.
#[inline]
pub fn corrected_is_nearest()
    ensures { IsCorrected }
{
    field_laws::<UatTables>()
}
