//! A damaged word, mended.
ghost use Rattle.std.specs.Prelude.{◌≡◌, ◌+◌, ◌<◌, ◌≤◌, ℕ, List, length, slice_index};
ghost use Rattle.rs_code.specs.CodeWord.{IsInstance, IsNear, differences, power_sum};
ghost use Rattle.rs_code.specs.Mending.{AreSums, Mends};

use crate::locator::{byte_law, find_locator};
use crate::marks::{add_roots, take_from_sums};
use crate::product::times;
use crate::rows::add_to_sums;
use crate::values::{add_errors, solve};
use crate::wrong_places::{find_places, write_points};
use gf256_core::laws::field_laws;
use gf256_core::{Uat, UatTables};
use poly256::laws::{degree_laws, end_zero_laws, few_roots, value_laws};

// The value of a word at 2 raised to `power`.
#[inline]
fn sum_of_word(word: &[u8], power: usize) -> Uat
    requires { power < 255 }
    ensures value { result ≡ power_sum word.now power }
    ensures fits { result < 256 }
{
    field_laws::<UatTables>();
    let point = Uat::pow_alpha(power as u32);
    let mut sum = Uat::of(0);
    for byte in word {
        sum = times(point, sum).add(Uat::of(*byte));
    }
    sum
}

// The values of a word of at most 20 bytes at 2 raised to 120 and to the 31 numbers after it.
#[inline]
fn sums_by_rows(word: &[u8]) -> [u8; 32]
    requires { length word.now ≤ 20 }
    ensures { AreSums 120 word.now 32 result }
{
    field_laws::<UatTables>();
    let mut sums = [0; 32];
    for power in 0..word.len() {
        add_to_sums(&mut sums, word[word.len() - 1 - power], power);
    }
    sums
}

// The values of a word at `ROOTS` powers of 2, from `first` on, one after another.
fn sums_one_by_one<const ROOTS: usize>(word: &[u8], first: usize) -> [u8; ROOTS]
    requires { first + ROOTS ≤ 255 }
    ensures long { length result ≡ ROOTS }
    ensures sums { AreSums first word.now ROOTS result }
{
    let mut sums = [0; ROOTS];
    for k in 0..ROOTS {
        sums[k] = sum_of_word(word, first + k).byte();
    }
    sums
}

// The values of a word at `ROOTS` powers of 2, from `first` on.
#[inline]
pub(crate) fn sums_of<const ROOTS: usize>(word: &[u8], first: usize) -> [u8; ROOTS]
    requires { first + ROOTS ≤ 255 }
    ensures long { length result ≡ ROOTS }
    ensures sums { AreSums first word.now ROOTS result }
{
    if first == 120 {
        if ROOTS <= 32 {
            if word.len() <= 20 {
                let mut sums = [0; ROOTS];
                sums.copy_from_slice(&sums_by_rows(word)[..ROOTS]);
                return sums;
            }
        }
    }
    sums_one_by_one(word, first)
}

// In how many places two words of one length differ.
pub(crate) fn count_differences(word: &[u8], other: &[u8]) -> usize
    requires { length word.now ≡ length other.now }
    ensures { result ≡ differences word.now other.now }
{
    let mut count = 0;
    for (i, byte) in word.iter().enumerate() {
        if *byte != other[i] {
            count += 1;
        }
    }
    count
}

// Makes a word with marked bytes the code word that is near it, if there is one. The sums are those
// of the word at the roots.
fn mend_with<const N: usize, const ROOTS: usize, const FIRST: usize>(
    word: &mut [u8; N],
    marks: &[u8],
    sums: &[u8; ROOTS],
)
    requires instance { IsInstance N ROOTS FIRST }
    requires sums { AreSums FIRST word.old ROOTS sums.now }
    requires inside { (i : ℕ) → i < length marks.now → slice_index marks.now i < N }
    requires few { length marks.now ≤ ROOTS }
    ensures { Mends N ROOTS FIRST marks.now word.old word.new }
{
    field_laws::<UatTables>();
    degree_laws();
    few_roots();
    value_laws();
    end_zero_laws();
    byte_law(word);
    let mut unmarked = *sums;
    take_from_sums::<N>(&mut unmarked, marks);
    let mut locator = [0; N];
    let low = find_locator(&unmarked[..ROOTS - marks.len()], &mut locator);
    add_roots(&mut locator, low, marks);
    byte_law(&locator);
    let mut places = [0; N];
    let found = find_places(&locator[..low + marks.len() + 1], &mut places);
    let mut points = [0; N];
    write_points(&places[..found], &mut points);
    let mut values = *sums;
    solve(&points[..found], &mut values[..found]);
    add_errors(word, &places[..found], &values[..found], FIRST);
}

// Makes a word the code word that is near it, if there is one. The sums are those of the word at the roots.
pub(crate) fn mend<const N: usize, const ROOTS: usize, const FIRST: usize>(
    word: &mut [u8; N],
    sums: &[u8; ROOTS],
)
    requires instance { IsInstance N ROOTS FIRST }
    requires sums { AreSums FIRST word.old ROOTS sums.now }
    ensures { (other : List ℕ) → IsNear N ROOTS FIRST word.old other → word.new ≡ other }
{
    mend_with::<N, ROOTS, FIRST>(word, &[], sums)
}
