ghost use Rattle.std.specs.Prelude.{◌≡◌, ◌<◌, ◌%◌, ℕ, bit_xor, slice_index};
ghost use Rattle.gf256_core.specs.Field.{product, power};

use crate::tables::{FieldTables, UatTables};
use std::marker::{Model, PhantomData};

/// An element of the field whose tables are those of `T`: one byte.
#[derive(Clone, Copy, Debug, PartialEq, Eq)]
pub struct Gf<T: FieldTables> {
    byte: u8,
    tables: PhantomData<T>,
}

/// An element of the field of UAT's code words.
pub type Uat = Gf<UatTables>;

impl<T: FieldTables> Model for Gf<T> {
    ghost Value = { ℕ };

    ghost view = { λ a. a.byte };

    ghost invariant = { λ a. a.byte < 256 };

    ghost inverse = { λ n. record { byte = n; tables = record {} } };
}

impl<T: FieldTables> Gf<T> {
    /// The element that `byte` writes: bit i is the coefficient of x^i.
    #[inline]
    pub fn of(byte: u8) -> Self
        ensures value { result ≡ byte }
        ensures fits { result < 256 }
    {
        Gf {
            byte,
            tables: PhantomData,
        }
    }

    /// The byte that writes this element.
    #[inline]
    pub fn byte(self) -> u8
        ensures { result ≡ self }
    {
        self.byte
    }

    /// The sum, which adds the coefficients of each power of x.
    #[inline]
    pub fn add(self, other: Self) -> Self
        ensures value { result ≡ bit_xor self other }
        ensures fits { result < 256 }
    {
        Self::of(self.byte ^ other.byte)
    }

    /// The product: the remainder of the product of the two polynomials by that of the tables.
    #[inline]
    pub fn mul(self, other: Self) -> Self
        ensures value { result ≡ product T.POLY self other }
        ensures fits { result < 256 }
    {
        if self.byte == 0 {
            return self;
        }
        if other.byte == 0 {
            return other;
        }
        Self::row(self.logarithm() + other.logarithm())
    }

    /// The element whose product with this one is 1.
    #[inline]
    pub fn inv(self) -> Self
        requires { 0 < self }
        ensures value { product T.POLY self result ≡ 1 }
        ensures fits { result < 256 }
    {
        Self::row(255 - self.logarithm())
    }

    /// The element whose product with `other` is this one.
    #[inline]
    pub fn div(self, other: Self) -> Self
        requires { 0 < other }
        ensures value { product T.POLY result other ≡ self }
        ensures fits { result < 256 }
    {
        if self.byte == 0 {
            return self;
        }
        Self::row(self.logarithm() + 255 - other.logarithm())
    }

    /// The element 2, which is x, raised to `n`.
    #[inline]
    pub fn pow_alpha(n: u32) -> Self
        ensures value { result ≡ power T.POLY 2 n }
        ensures fits { result < 256 }
    {
        Self::row((n % 255) as usize)
    }

    // The i, below 255, for which x raised to i is this element.
    #[inline]
    fn logarithm(self) -> usize
        requires { 0 < self }
        ensures value { result ≡ slice_index T.LOG self }
        ensures fits { result < 255 }
        ensures byte { self < 256 }
    {
        T::logarithm_at(self.byte) as usize
    }

    // x raised to `power`: the rows come round after 255.
    #[inline]
    fn row(power: usize) -> Self
        requires { power < 510 }
        ensures value { result ≡ slice_index T.EXP (power % 255) }
        ensures fits { result < 256 }
    {
        let place = if power < 255 { power } else { power - 255 };
        Self::of(T::power_at(place))
    }
}

#[cfg(test)]
mod tests {
    use super::*;
    use crate::laws::field_laws;

    // The power of the element 2, as a byte.
    fn power(n: u32) -> u8 {
        Uat::pow_alpha(n).byte()
    }

    #[test]
    fn powers_of_two_are_those_of_the_standard(rt: HostRuntime) {
        assert_eq!(rt; power(0), 0x01);
        assert_eq!(rt; power(8), 0x87);
        assert_eq!(rt; power(15), 0xf4);
        assert_eq!(rt; power(16), 0x6f);
        assert_eq!(rt; power(120), 0xe1);
        assert_eq!(rt; power(255), 0x01);
        assert_eq!(rt; power(u32::MAX), 0x01);
    }

    #[test]
    fn a_product_is_reduced_by_the_modulus(rt: HostRuntime) {
        assert_eq!(rt; Uat::of(0x87).mul(Uat::of(0x87)).byte(), 0x6f);
        assert_eq!(rt; Uat::of(0).mul(Uat::of(0x87)).byte(), 0);
        assert_eq!(rt; Uat::of(0x87).mul(Uat::of(0)).byte(), 0);
        assert_eq!(rt; Uat::of(0x87).mul(Uat::of(1)).byte(), 0x87);
    }

    #[test]
    fn the_law_of_the_field_may_be_called(rt: HostRuntime) {
        field_laws::<UatTables>();
        let (a, b, c) = (Uat::of(3), Uat::of(0x87), Uat::of(0xff));
        assert!(rt; a.add(b).mul(c) == a.mul(c).add(b.mul(c)));
    }

    #[test]
    fn a_sum_has_no_carries(rt: HostRuntime) {
        assert_eq!(rt; Uat::of(0x87).add(Uat::of(0xff)).byte(), 0x78);
        assert!(rt; Uat::of(0x87).add(Uat::of(0x87)) == Uat::of(0));
    }

    #[test]
    fn an_inverse_undoes_a_product(rt: HostRuntime) {
        let two = Uat::of(2);
        assert_eq!(rt; two.inv().byte(), 0xc3);
        assert_eq!(rt; two.inv().mul(two).byte(), 1);
        assert_eq!(rt; Uat::of(1).inv().byte(), 1);
    }

    #[test]
    fn a_quotient_undoes_a_product(rt: HostRuntime) {
        let divisor = Uat::of(0x87);
        assert_eq!(rt; Uat::of(0x6f).div(divisor).byte(), 0x87);
        assert_eq!(rt; Uat::of(1).div(Uat::of(2)).byte(), 0xc3);
        assert_eq!(rt; Uat::of(0).div(divisor).byte(), 0);
    }
}
