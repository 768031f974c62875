ghost use Rattle.gf256_core.specs.Field.{IsField};
ghost use Rattle.gf256_core.specs.Laws.{HasOneRemainder};

use crate::tables::FieldTables;

/// The law that sum and product make a field.
#[inline]
pub fn field_laws<T: FieldTables>()
    ensures { IsField T.POLY }
{}

/// The law that a number has one remainder by the modulus, of degree below 8.
#[inline]
pub fn one_remainder<T: FieldTables>()
    ensures { HasOneRemainder T.POLY }
{}
