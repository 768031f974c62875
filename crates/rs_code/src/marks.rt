//! Marked bytes of a word, which may be wrong in any way: they fall out of the power sums, and their places are roots.
ghost use Rattle.std.specs.Prelude.{◌≡◌, ◌+◌, ◌<◌, ◌≤◌, ℕ, length, slice_index};
ghost use Rattle.poly256.specs.Polynomial.{value_at};
ghost use Rattle.rs_code.specs.Mending.{point_at, HasLead, HasNextAdded, IsTimesRoot};
ghost use Rattle.rs_code.specs.Mending.{IsZeroAtMarks, LosesMarks};

use crate::product::times;
use gf256_core::laws::field_laws;
use gf256_core::{Uat, UatTables};
use poly256::laws::{degree_laws, end_zero_laws, value_laws};

// The point of a byte of a word of `count` bytes.
#[inline]
fn point_of(count: usize, mark: u8) -> Uat
    requires inside { mark < count }
    requires short { count ≤ 255 }
    ensures { result ≡ point_at count mark }
{
    Uat::pow_alpha((count - 1 - mark as usize) as u32)
}

// Multiplies each sum by a point and adds the next one. The last sum is lost.
#[inline]
fn add_next(sums: &mut [u8], point: Uat)
    ensures { HasNextAdded point sums.old sums.new }
{
    for k in 1..sums.len() {
        let term = times(point, Uat::of(sums[k - 1]));
        sums[k - 1] = Uat::of(sums[k]).add(term).byte();
    }
}

// Takes marked bytes out of the power sums of a word of `N` bytes. Of the sums as many are lost as there are marks.
pub(crate) fn take_from_sums<const N: usize>(sums: &mut [u8], marks: &[u8])
    requires short { N ≤ 255 }
    requires inside { (i : ℕ) → i < length marks.now → slice_index marks.now i < N }
    ensures { LosesMarks N marks.now sums.old sums.new }
{
    field_laws::<UatTables>();
    for mark in marks {
        add_next(sums, point_of(N, *mark));
    }
}

// Multiplies a polynomial by x + point, where its list has room for one coefficient more.
#[inline]
fn add_root(polynomial: &mut [u8], point: Uat)
    ensures { IsTimesRoot point polynomial.old polynomial.new }
{
    let mut before = Uat::of(0);
    for k in 0..polynomial.len() {
        let here = Uat::of(polynomial[k]);
        polynomial[k] = before.add(times(point, here)).byte();
        before = here;
    }
}

// Multiplies a polynomial of this degree by x + point for the point of each marked byte of a word of `N` bytes.
pub(crate) fn add_roots<const N: usize>(polynomial: &mut [u8; N], degree: usize, marks: &[u8])
    requires short { N ≤ 255 }
    requires inside { (i : ℕ) → i < length marks.now → slice_index marks.now i < N }
    requires lead { HasLead polynomial.old degree }
    requires room { degree + length marks.now < N }
    ensures long { length polynomial.new ≡ N }
    ensures lead { HasLead polynomial.new (degree + length marks.now) }
    ensures kept { (x : ℕ) → value_at polynomial.old x ≡ 0 → value_at polynomial.new x ≡ 0 }
    ensures roots { IsZeroAtMarks N marks.now polynomial.new }
{
    field_laws::<UatTables>();
    degree_laws();
    value_laws();
    end_zero_laws();
    for mark in marks {
        add_root(polynomial, point_of(N, *mark));
    }
}
