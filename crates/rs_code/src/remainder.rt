//! The remainder of a word, by the generator of its code.
ghost use Rattle.std.specs.Prelude.{◌≡◌, ◌+◌, ◌-◌, ◌<◌, ◌≤◌, ℕ, ◌∷◌, IsTrue, ◌↔◌, drop, length};
ghost use Rattle.std.specs.Prelude.{slice_index, take};
ghost use Rattle.rs_code.specs.CodeWord.{IsCodeWord, IsInstance, power_sum};

use crate::generator::generator;
use crate::locator::byte_law;
use crate::product::add_product;
use crate::uplink_rows::add_row;
use gf256_core::laws::field_laws;
use gf256_core::{Uat, UatTables};
use poly256::laws::degree_laws;

// Takes from a word, byte by byte, the multiple of the uplink's generator that begins with the byte. What is left stands in
// its last 20 bytes, and has the power sums of the word.
fn divide_by_rows(word: &mut [u8])
    requires { 20 ≤ length word.old }
    ensures { (j : ℕ) → 120 ≤ j → j < 140 →
        power_sum (drop (length word.old - 20) word.new) j ≡ power_sum word.old j }
{
    field_laws::<UatTables>();
    degree_laws();
    for place in 0..word.len() - 20 {
        let (front, back) = word.split_at_mut(place + 1);
        add_row(back, front[place]);
    }
}

// The same by another generator.
fn divide_by(word: &mut [u8], generator: &[u8])
    requires { length generator.now ≤ length word.old }
    ensures { (j : ℕ) → power_sum (1 ∷ generator.now) j ≡ 0 →
        power_sum (drop (length word.old - length generator.now) word.new) j
        ≡ power_sum word.old j }
{
    field_laws::<UatTables>();
    degree_laws();
    for place in 0..word.len() - generator.len() {
        let (front, back) = word.split_at_mut(place + 1);
        add_product(back, 0, Uat::of(front[place]), generator);
    }
}

// The same by the generator of a code.
#[inline]
fn divide<const ROOTS: usize, const FIRST: usize>(word: &mut [u8])
    requires room { ROOTS ≤ length word.old }
    requires high { FIRST + ROOTS ≤ 255 }
    ensures { (j : ℕ) → FIRST ≤ j → j < FIRST + ROOTS →
        power_sum (drop (length word.old - ROOTS) word.new) j ≡ power_sum word.old j }
{
    if ROOTS == 20 {
        if FIRST == 120 {
            divide_by_rows(word);
            return;
        }
    }
    divide_by(word, &generator::<ROOTS>(FIRST));
}

// The last `ROOTS` bytes of a word, once it is divided.
#[inline]
fn rest_of_division<const N: usize, const ROOTS: usize, const FIRST: usize>(
    word: &[u8; N],
) -> [u8; ROOTS]
    requires room { ROOTS ≤ N }
    requires high { FIRST + ROOTS ≤ 255 }
    ensures sums { (j : ℕ) → FIRST ≤ j → j < FIRST + ROOTS →
        power_sum result j ≡ power_sum word.now j }
    ensures long { length result ≡ ROOTS }
{
    let mut copy = *word;
    divide::<ROOTS, FIRST>(&mut copy);
    let (_, back) = copy.split_at(N - ROOTS);
    let mut rest = [0; ROOTS];
    rest.copy_from_slice(back);
    rest
}

// The remainder of a word by the generator of its code, highest power first: 0 throughout exactly where the word is a code
// word.
#[inline]
pub(crate) fn remainder<const N: usize, const ROOTS: usize, const FIRST: usize>(
    word: &[u8; N],
) -> [u8; ROOTS]
    requires { IsInstance N ROOTS FIRST }
    ensures sums { (j : ℕ) → FIRST ≤ j → j < FIRST + ROOTS →
        power_sum result j ≡ power_sum word.now j }
    ensures long { length result ≡ ROOTS }
    ensures bytes { (k : ℕ) → slice_index result k < 256 }
    ensures code { ((k : ℕ) → slice_index result k ≡ 0) ↔ IsCodeWord N ROOTS FIRST word.now }
{
    field_laws::<UatTables>();
    byte_law(word);
    let rest = rest_of_division::<N, ROOTS, FIRST>(word);
    byte_law(&rest);
    rest
}

// Whether all bytes are 0.
#[inline]
pub(crate) fn all_zero(bytes: &[u8]) -> bool
    requires { length bytes.now ≤ 255 }
    ensures { IsTrue result ↔ ((k : ℕ) → slice_index bytes.now k ≡ 0) }
{
    let mut total = 0u16;
    for byte in bytes {
        total += u16::from(*byte);
    }
    total == 0
}

// Makes the bytes from a place on 0.
#[inline]
pub(crate) fn clear(word: &mut [u8], place: usize)
    requires { place ≤ length word.old }
    ensures front { take place word.new ≡ take place word.old }
    ensures zeros { (k : ℕ) → place ≤ k → slice_index word.new k ≡ 0 }
{
    for i in place..word.len() {
        word[i] = 0;
    }
}
