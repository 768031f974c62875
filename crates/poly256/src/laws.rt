ghost use Rattle.poly256.specs.Laws.{IsRing, IgnoresEndZeros, HasDegrees, HasValues, HasFewRoots};

use gf256_core::UatTables;
use gf256_core::laws::field_laws;

/// The law that sums and products of polynomials make a ring.
#[inline]
pub fn ring_laws()
    ensures { IsRing }
{
    field_laws::<UatTables>()
}

/// The law that zeros at the end of a list of coefficients change no sum, product or value.
#[inline]
pub fn end_zero_laws()
    ensures { IgnoresEndZeros }
{
    field_laws::<UatTables>()
}

/// The laws of the degrees of sums and products, and that a division has one answer.
#[inline]
pub fn degree_laws()
    ensures { HasDegrees }
{
    field_laws::<UatTables>()
}

/// The laws of the values of sums and products.
#[inline]
pub fn value_laws()
    ensures { HasValues }
{
    field_laws::<UatTables>()
}

/// The law that a polynomial of degree d is 0 at no more than d elements.
#[inline]
pub fn few_roots()
    ensures { HasFewRoots }
{
    field_laws::<UatTables>()
}
