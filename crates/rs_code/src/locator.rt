//! The polynomial that is 0 at the point of each wrong place, from the power sums of a word.
ghost use Rattle.std.specs.Prelude.{◌≡◌, ◌+◌, ◌-◌, ◌/◌, ◌<◌, ◌≤◌, ℕ, length, take, slice_index};
ghost use Rattle.poly256.specs.Polynomial.{element_product};
ghost use Rattle.rs_code.specs.Mending.{paired_sum, IsLocator, IsEarlier};

use crate::product::{add_product, times};
use gf256_core::laws::field_laws;
use gf256_core::{Uat, UatTables};
use poly256::laws::degree_laws;

// The coefficients of a polynomial, each times the sum as far after `from` as its power, added.
#[inline]
fn discrepancy(coefficients: &[u8], sums: &[u8], from: usize) -> Uat
    requires { from + length coefficients.now ≤ length sums.now }
    ensures value { result ≡ paired_sum coefficients.now (λ k. slice_index sums.now (from + k)) }
    ensures fits { result < 256 }
{
    let mut total = Uat::of(0);
    for (power, coefficient) in coefficients.iter().enumerate() {
        total = total.add(times(Uat::of(*coefficient), Uat::of(sums[from + power])));
    }
    total
}

// Puts a locator of degree `at + 1` in the place of one that pairs to `off` from the place `at` on, and that one in the
// place of the earlier one. A multiple of the earlier one, and then of this one, takes away what is left at each place.
fn lengthen<const N: usize>(
    locator: &mut [u8; N],
    earlier: &mut [u8; N],
    degree: usize,
    at: usize,
    last: Uat,
    off: Uat,
    sums: &[u8],
)
    requires locator { IsLocator locator.old sums.now degree at }
    requires earlier { IsEarlier earlier.old sums.now degree last }
    requires off { paired_sum locator.old (λ k. slice_index sums.now (at + k)) ≡ off }
    requires last_some { 0 < last }
    requires off_some { 0 < off }
    requires degree { degree ≤ at }
    requires room { at + 1 < N }
    requires sums { at + at + 2 ≤ length sums.now }
    ensures locator { IsLocator locator.new sums.now (at + 1) (at + 1) }
    ensures earlier { IsEarlier earlier.new sums.now (at + 1) off }
    ensures long { length locator.new ≡ N }
{
    field_laws::<UatTables>();
    degree_laws();
    let mut next = [0; N];
    add_product(
        &mut next,
        at + 1 - degree,
        Uat::of(1),
        &locator[..degree + 1],
    );
    add_product(&mut next, 0, off.div(last), &earlier[..degree]);
    for place in degree..at + 1 {
        let rest = discrepancy(&next[..at + 2], sums, place);
        add_product(&mut next, at - place, rest.div(off), &locator[..degree + 1]);
    }
    *earlier = *locator;
    *locator = next;
}

// The law that bytes are below 256.
#[inline]
pub(crate) fn byte_law(bytes: &[u8])
    ensures { (k : ℕ) → slice_index bytes.now k < 256 }
{
    let _ = bytes;
}

// The degree of a locator, which is written into a room of zeros.
pub(crate) fn find_locator<const N: usize>(sums: &[u8], locator: &mut [u8; N]) -> usize
    requires zeros { (k : ℕ) → slice_index locator.old k ≡ 0 }
    requires room { length sums.now / 2 < N }
    ensures locator { IsLocator locator.new sums.now result (length sums.now / 2) }
    ensures degree { result ≤ length sums.now / 2 }
    ensures long { length locator.new ≡ N }
    ensures bytes { (k : ℕ) → slice_index locator.new k < 256 }
{
    field_laws::<UatTables>();
    let mut earlier = [0; N];
    let mut last = Uat::of(1);
    let mut degree = 0;
    locator[0] = 1;
    for at in 0..sums.len() / 2 {
        let off = discrepancy(&locator[..degree + 1], sums, at);
        if off.byte() != 0 {
            lengthen(locator, &mut earlier, degree, at, last, off, sums);
            last = off;
            degree = at + 1;
        }
    }
    byte_law(locator);
    degree
}
