ghost use Rattle.std.specs.Prelude.{◌≡◌, ◌+◌, ◌<◌, ◌≤◌, ◌↔◌, [], length, take, slice_index, IsNone};

use crate::room::{add_list, add_product, divide, trimmed_len, value_of, write_derivative};
use gf256_core::laws::field_laws;
use gf256_core::{Uat, UatTables};
use std::marker::Model;

/// A polynomial over the field of the uplink's code, with room for `CAP` coefficients, from 1 to 1,024. It is seen as
/// the list of its coefficients, lowest power first, of which the last is not 0.
#[derive(Drop)]
pub struct Poly<const CAP: usize> {
    bytes: [u8; CAP],
    len: usize,
}

impl<const CAP: usize> Model for Poly<CAP> {
    ghost use Rattle.std.specs.Prelude.{ℕ, ◌≤◌, List, take};
    ghost use Rattle.poly256.specs.Polynomial.{IsPolynomial};

    ghost Value = { List ℕ };

    ghost view = { λ p. take p.len p.bytes };

    ghost invariant = { λ p. (p.len ≤ CAP) × IsPolynomial CAP (take p.len p.bytes) };
}

impl<const CAP: usize> Poly<CAP> {
    ghost use Rattle.poly256.specs.Polynomial.{IsPolynomial, trimmed_coefficients, sum_of};
    ghost use Rattle.poly256.specs.Polynomial.{list_product, value_at, derivative_of, degree_of};
    ghost use Rattle.poly256.specs.Polynomial.{IsDivision};

    /// The polynomial that is 0 everywhere.
    pub fn zero() -> Self
        requires low { 1 ≤ CAP }
        requires high { CAP ≤ 1024 }
        ensures value { result ≡ [] }
        ensures shape { IsPolynomial CAP result }
    {
        Poly {
            bytes: [0; CAP],
            len: 0,
        }
    }

    /// The polynomial with these coefficients, lowest power first. Zeros at the end are dropped.
    pub fn of(coefficients: &[u8]) -> Self
        requires low { 1 ≤ CAP }
        requires high { CAP ≤ 1024 }
        requires room { length coefficients.now ≤ CAP }
        ensures value { result ≡ trimmed_coefficients coefficients.now }
        ensures shape { IsPolynomial CAP result }
    {
        let mut bytes = [0; CAP];
        add_list(&mut bytes, coefficients);
        Self::keep(bytes, coefficients.len())
    }

    /// The coefficient of x^power, which is 0 past the degree.
    pub fn coefficient(&self, power: usize) -> Uat
        ensures value { result ≡ slice_index self.now power }
        ensures shape { IsPolynomial CAP self.now }
    {
        let coefficients = self.coefficients();
        if power < coefficients.len() {
            Uat::of(coefficients[power])
        } else {
            Uat::of(0)
        }
    }

    /// The greatest power whose coefficient is not 0, or `None` of the polynomial 0.
    pub fn degree(&self) -> Option<usize>
        ensures value { result ≡ degree_of self.now }
        ensures none { IsNone result ↔ (self.now ≡ []) }
        ensures shape { IsPolynomial CAP self.now }
    {
        self.coefficients().len().checked_sub(1)
    }

    /// The value at an element.
    pub fn eval(&self, at: Uat) -> Uat
        ensures value { result ≡ value_at self.now at }
        ensures fits { result < 256 }
    {
        value_of(self.coefficients(), at)
    }

    /// The derivative, in which x^n becomes n x^(n - 1).
    pub fn derivative(&self) -> Self
        ensures value { result ≡ trimmed_coefficients (derivative_of self.now) }
        ensures shape { IsPolynomial CAP result }
    {
        let coefficients = self.coefficients();
        let mut bytes = [0; CAP];
        write_derivative(&mut bytes, coefficients);
        Self::keep(bytes, coefficients.len())
    }

    /// The sum, which adds the coefficients of each power.
    pub fn add(&self, other: &Self) -> Self
        ensures value { result ≡ trimmed_coefficients (sum_of self.now other.now) }
        ensures shape { IsPolynomial CAP result }
    {
        let first = self.coefficients();
        let second = other.coefficients();
        let mut bytes = [0; CAP];
        add_list(&mut bytes, first);
        add_list(&mut bytes, second);
        Self::keep(bytes, first.len().max(second.len()))
    }

    /// The product. Where neither factor is 0 their degrees sum to less than `CAP`.
    pub fn mul(&self, other: &Self) -> Self
        requires { 0 < length self.now → 0 < length other.now →
            length self.now + length other.now ≤ CAP + 1 }
        ensures value { result ≡ trimmed_coefficients (list_product self.now other.now) }
        ensures shape { IsPolynomial CAP result }
    {
        let first = self.coefficients();
        let second = other.coefficients();
        let mut bytes = [0; CAP];
        add_product(&mut bytes, first, second);
        Self::keep(bytes, (first.len() + second.len()).min(CAP))
    }

    /// The quotient and the rest, which is 0 or of lower degree than the divisor. The divisor is not 0.
    pub fn div_rem(&self, divisor: &Self) -> (Self, Self)
        requires { 0 < length divisor.now }
        ensures value { IsDivision self.now divisor.now result.0 result.1 }
        ensures quotient { IsPolynomial CAP result.0 }
        ensures rest { IsPolynomial CAP result.1 }
    {
        field_laws::<UatTables>();
        let coefficients = self.coefficients();
        let steps = divisor.coefficients();
        let mut rest = [0; CAP];
        add_list(&mut rest, coefficients);
        let mut quotient = [0; CAP];
        divide(&mut rest, &mut quotient, coefficients.len(), steps);
        (
            Self::keep(quotient, coefficients.len()),
            Self::keep(rest, steps.len() - 1),
        )
    }

    // The polynomial whose coefficients are the first `bound` of `bytes`.
    #[inline]
    fn keep(bytes: [u8; CAP], bound: usize) -> Self
        requires low { 1 ≤ CAP }
        requires high { CAP ≤ 1024 }
        requires room { bound ≤ CAP }
        ensures value { result ≡ trimmed_coefficients (take bound bytes.entry) }
        ensures shape { IsPolynomial CAP result }
    {
        let len = trimmed_len(&bytes[..bound]);
        Poly { bytes, len }
    }

    // Its coefficients, lowest power first.
    #[inline]
    fn coefficients(&self) -> &[u8]
        ensures value { result.now ≡ self.now }
        ensures shape { IsPolynomial CAP self.now }
    {
        &self.bytes[..self.len]
    }
}
