//! Codes, and what they do with words.
ghost use Rattle.std.specs.Prelude.{◌≡◌, ◌+◌, ◌-◌, ℕ, List, take, length, is_ok, IsTrue, Some};
ghost use Rattle.std.specs.Prelude.{None, IfOk, MatchOption, OnOk, OnErr, ◌↔◌};
ghost use Rattle.rs_code.specs.CodeWord.{IsInstance, IsCodeWord, IsNear, IsCorrectable};
ghost use Rattle.rs_code.specs.CodeWord.{differences};
ghost use Rattle.rs_code.specs.Functions.{encoded_word, corrected_word};

use crate::laws::{corrected_is_nearest, one_encoded};
use crate::locator::byte_law;
use crate::mend::{count_differences, mend, sums_of};
use crate::remainder::{all_zero, clear, remainder};
use gf256_core::UatTables;
use gf256_core::laws::field_laws;

/// A code whose words have `N` bytes, of which the last `ROOTS` are parity. The first byte of a word is the coefficient of
/// the highest power, and a code word is 0 at 2 raised to `FIRST` and to the `ROOTS - 1` numbers after it.
#[derive(Drop)]
pub struct Rs<const N: usize, const ROOTS: usize, const FIRST: usize> {
    // so that only `new` makes one
    private: (),
    ghost instance: { IsInstance N ROOTS FIRST },
}

/// The code of the blocks of an uplink frame.
pub type UplinkCode = Rs<92, 20, 120>;

/// No code word is near enough.
#[derive(Clone, Copy, Debug, PartialEq, Eq)]
pub struct Uncorrectable;

impl<const N: usize, const ROOTS: usize, const FIRST: usize> Rs<N, ROOTS, FIRST> {
    /// The code. `ROOTS` is even and below `N`; `N` and `FIRST + ROOTS` are at most 255. Of a code without roots every word
    /// is a code word.
    pub fn new() -> Self
        requires { IsInstance N ROOTS FIRST }
    {
        Rs { private: () }
    }

    /// Sets the last `ROOTS` bytes of a word so that it is a code word, the only one that begins so.
    pub fn encode(&self, word: &mut [u8; N])
        ensures code { IsCodeWord N ROOTS FIRST word.new }
        ensures front { take (N - ROOTS) word.new ≡ take (N - ROOTS) word.old }
        ensures only { (other : List ℕ) → IsCodeWord N ROOTS FIRST other →
            take (N - ROOTS) other ≡ take (N - ROOTS) word.old → other ≡ word.new }
        ensures function { word.new ≡ encoded_word N ROOTS FIRST (take (N - ROOTS) word.old) }
    {
        one_encoded();
        field_laws::<UatTables>();
        clear(word, N - ROOTS);
        let rest = remainder::<N, ROOTS, FIRST>(word);
        let (front, back) = word.split_at_mut(N - ROOTS);
        byte_law(front);
        back.copy_from_slice(&rest);
    }

    /// Whether a word is a code word.
    pub fn is_codeword(&self, word: &[u8; N]) -> bool
        ensures { IsTrue result ↔ IsCodeWord N ROOTS FIRST word.now }
    {
        all_zero(&remainder::<N, ROOTS, FIRST>(word))
    }

    /// Puts the code word near a word in its place, and gives the number of places that changed. Where none is near the
    /// word stays as it is.
    pub fn correct(&self, word: &mut [u8; N]) -> Result<u8, Uncorrectable>
        ensures exactly { IsTrue (is_ok result) ↔ IsCorrectable N ROOTS FIRST word.old }
        ensures corrected { IfOk result (λ changed. IsNear N ROOTS FIRST word.old word.new
            × (changed ≡ differences word.old word.new)) }
        ensures unchanged { OnErr result (word.new ≡ word.old) }
        ensures function { OnOk result (corrected_word N ROOTS FIRST word.old ≡ Some word.new) }
        ensures none { OnErr result (corrected_word N ROOTS FIRST word.old ≡ None) }
    {
        corrected_is_nearest();
        let rest = remainder::<N, ROOTS, FIRST>(word);
        if all_zero(&rest) {
            return Ok(0);
        }
        let sums = sums_of::<ROOTS>(&rest, FIRST);
        let mut mended = *word;
        mend::<N, ROOTS, FIRST>(&mut mended, &sums);
        match self.near_count(word, &mended) {
            Some(changed) => {
                *word = mended;
                Ok(changed)
            }
            None => Err(Uncorrectable),
        }
    }

    // In how many places a word differs from another, where that one is a code word near it.
    fn near_count(&self, word: &[u8; N], mended: &[u8; N]) -> Option<u8>
        ensures { MatchOption result (IsNear N ROOTS FIRST word.now mended.now → ⊥)
            (λ changed. IsNear N ROOTS FIRST word.now mended.now
            × (changed ≡ differences word.now mended.now)) }
    {
        let changed = count_differences(word, mended);
        if changed > ROOTS / 2 {
            return None;
        }
        if self.is_codeword(mended) {
            Some(changed as u8)
        } else {
            None
        }
    }
}
