//! The values at different points whose sums, each value times its point raised to 0, 1, 2 and so on, are given.
ghost use Rattle.std.specs.Prelude.{◌≡◌, ◌≢◌, ◌+◌, ◌*◌, ◌<◌, ◌≤◌, ℕ, List, ◌∷◌, length};
ghost use Rattle.std.specs.Prelude.{slice_index, bit_xor};
ghost use Rattle.poly256.specs.Laws.{AreDifferent};
ghost use Rattle.poly256.specs.Polynomial.{element_power, element_product};
ghost use Rattle.rs_code.specs.Mending.{points_sum, total_of, with_errors};

use crate::product::times;
use gf256_core::laws::field_laws;
use gf256_core::{Uat, UatTables};

// Adds to each sum the one before it times `point`. Behind the first these are the sums of the values, each times its point
// plus this one.
#[inline]
fn weigh(sums: &mut [u8], point: Uat)
    ensures { (k : ℕ) → k < length sums.old → slice_index sums.new k
        ≡ bit_xor (slice_index sums.old k) (element_product point (slice_index (0 ∷ sums.old) k)) }
{
    let mut before = Uat::of(0);
    for i in 0..sums.len() {
        let here = Uat::of(sums[i]);
        sums[i] = here.add(times(point, before)).byte();
        before = here;
    }
}

// Divides each value by its point plus `point`.
#[inline]
fn unweigh(points: &[u8], values: &mut [u8], point: Uat)
    requires long { length points.now ≡ length values.old }
    requires apart { (i : ℕ) → i < length points.now → slice_index points.now i ≢ point }
    ensures { (i : ℕ) → i < length points.now →
        element_product (slice_index values.new i) (bit_xor (slice_index points.now i) point)
        ≡ slice_index values.old i }
{
    for (i, other) in points.iter().enumerate() {
        let weight = Uat::of(*other).add(point);
        values[i] = Uat::of(values[i]).div(weight).byte();
    }
}

// All bytes added.
#[inline]
fn total(bytes: &[u8]) -> u8
    ensures { result ≡ total_of bytes.now }
{
    let mut total = 0;
    for byte in bytes {
        total ^= *byte;
    }
    total
}

// Puts the values in the place of the sums.
pub(crate) fn solve(points: &[u8], sums: &mut [u8])
    requires long { length points.now ≡ length sums.old }
    requires different { AreDifferent points.now }
    ensures { (values : List ℕ) → length values ≡ length points.now →
        ((i : ℕ) → slice_index values i < 256) →
        ((n : ℕ) → n < length values → slice_index sums.old n ≡ points_sum points.now values n) →
        sums.new ≡ values }
{
    field_laws::<UatTables>();
    if points.len() == 0 {
        return;
    }
    let point = Uat::of(points[0]);
    weigh(sums, point);
    let (_, others) = points.split_at(1);
    let (first, rest) = sums.split_at_mut(1);
    solve(others, rest);
    unweigh(others, rest, point);
    first[0] ^= total(rest);
}

// Adds to a word the errors whose values, each error times the point of its place raised to `first`, are given.
pub(crate) fn add_errors<const N: usize>(
    word: &mut [u8; N],
    places: &[u8],
    values: &[u8],
    first: usize,
)
    requires long { length places.now ≡ length values.now }
    requires inside { (i : ℕ) → i < length places.now → slice_index places.now i < N }
    requires short { N ≤ 255 }
    requires first { first ≤ 255 }
    ensures { (errors : List ℕ) → length errors ≡ length places.now →
        ((i : ℕ) → slice_index errors i < 256) →
        ((i : ℕ) → i < length errors → element_product (slice_index errors i)
        (element_power 2 (first * slice_index places.now i)) ≡ slice_index values.now i) →
        word.new ≡ with_errors word.old places.now errors }
{
    field_laws::<UatTables>();
    for (i, place) in places.iter().enumerate() {
        let place = *place as usize;
        let weight = Uat::pow_alpha((first * place) as u32);
        word[N - 1 - place] ^= Uat::of(values[i]).div(weight).byte();
    }
}
