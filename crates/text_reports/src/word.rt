//! A word of a report.
ghost use Rattle.std.specs.Prelude.{◌≡◌, ◌<◌, length, slice_index, IfOk, IfSome, nat_eq};
ghost use Rattle.std.specs.Cmp.Lexicographic.{pointwise, slice_cmp};
ghost use Rattle.std.specs.Cmp.{partial_order_from_own_ties};
ghost use Rattle.std.specs.Ordering.{nat_cmp, as_partial_cmp};
ghost use Rattle.std.specs.Str.{chars};
ghost use Rattle.std.proofs.Common.{rules};
ghost use Rattle.text_reports.specs.Front.{front_number};
ghost use Rattle.text_reports.specs.TextKey.{IsWord};
ghost use Rattle.std.specs.Cmp.Rules.{comparing};

use std::alloc::{AllocError, Global};
use std::cmp::Ordering;
use std::marker::Model;

/// How many bytes of a word its front has.
const FRONT_LENGTH: usize = 8;

/// A word of a report: at least one character, and none of them a space or a newline.
#[derive(Debug, Drop)]
pub struct Word {
    text: String,
    /// The number that the first eight bytes write to the base 256. It mostly tells two words
    /// apart, and in their order.
    front: u64,
}

impl Model for Word {
    ghost use Rattle.std.specs.Prelude.{◌≡◌, List, ℕ};
    ghost use Rattle.std.specs.String.{string_bytes};
    ghost use Rattle.text_reports.specs.TextKey.{IsWord};

    ghost Value = { List ℕ };

    ghost use Rattle.text_reports.specs.Front.{front_number};

    ghost view = { λ w. string_bytes w.text };

    ghost invariant = { λ w. IsWord (string_bytes w.text)
        × (w.front ≡ front_number 8 (string_bytes w.text)) };
}

impl Word {
    /// The number of characters.
    pub fn len(&self) -> usize
        ensures count { result ≡ length (chars self.now) }
        ensures word { IsWord self.now }
    {
        self.text.as_str().chars().count()
    }

    /// The character at a place, counted from 0.
    pub fn at(&self, place: usize) -> char
        requires { place < length (chars self.now) }
        ensures { result ≡ slice_index (chars self.now) place }
    {
        self.text.as_str().chars().nth(place).unwrap()
    }

    /// The whole word.
    pub fn all(&self) -> &str
        ensures { result.now ≡ self.now }
    {
        self.text.as_str()
    }

    /// The same word again.
    pub fn copy(&self, alloc: Global) -> Result<Word, AllocError>
        ensures { IfOk result (λ copy. copy ≡ self.now) }
    {
        Word::of(alloc, self.text.as_str())
    }

    /// A word of these characters.
    pub(crate) fn of(alloc: Global, text: &str) -> Result<Word, AllocError>
        requires { IsWord text.now }
        ensures { IfOk result (λ word. word ≡ text.now) }
    {
        Ok(Word {
            text: String::from_str(alloc, text)?,
            front: front_number(text.as_bytes()),
        })
    }
}

/// The number that the first eight bytes write to the base 256; zeros stand for those that are
/// missing.
fn front_number(word: &[u8]) -> u64
    ensures { result ≡ front_number 8 word.now }
{
    let mut number = 0u64;
    for place in 0..FRONT_LENGTH {
        number = number * 256 + byte_at(word, place);
    }
    number
}

/// The order of two words with these fronts, where the fronts or the lengths tell it.
fn order_by_fronts(one: &[u8], front: u64, other: &[u8], other_front: u64) -> Option<Ordering>
    requires front { front ≡ front_number 8 one.now }
    requires other_front { other_front ≡ front_number 8 other.now }
    ensures { IfSome result (λ order. order ≡ slice_cmp nat_cmp one.now other.now) }
{
    if front != other_front {
        return Some(front.cmp(&other_front));
    }
    if one.len() <= FRONT_LENGTH && other.len() <= FRONT_LENGTH {
        return Some(one.len().cmp(&other.len()));
    }
    None
}

/// A byte of a word, or 0 after its end.
fn byte_at(word: &[u8], place: usize) -> u64
    ensures byte { result ≡ slice_index word.now place }
    ensures fits { result < 256 }
{
    match word.get(place) {
        Some(byte) => u64::from(*byte),
        None => 0,
    }
}

impl PartialEq for Word {
    ghost eq = { pointwise nat_eq };

    ghost laws = { Prim.search (comparing, rules) };

    fn eq(&self, other: &Word) -> bool {
        self.text.as_str() == other.text.as_str()
    }
}

impl Eq for Word {
    ghost laws = { Prim.search (comparing, rules) };
}

impl Ord for Word {
    ghost cmp = { slice_cmp nat_cmp };

    ghost total = { Prim.search (comparing, rules) };

    ghost matches_partial_cmp = { Prim.search (comparing, rules) };

    ghost matches_eq = { Prim.search (comparing, rules) };

    fn cmp(&self, other: &Word) -> Ordering {
        let (one, another) = (self.text.as_str(), other.text.as_str());
        let told = order_by_fronts(one.as_bytes(), self.front, another.as_bytes(), other.front);
        match told {
            Some(order) => order,
            None => one.cmp(another),
        }
    }
}

impl PartialOrd for Word {
    ghost partial_cmp = { as_partial_cmp (slice_cmp nat_cmp) };

    ghost laws = { partial_order_from_own_ties
        (Prim.search (comparing, rules)) (Prim.search (comparing, rules)) };

    fn partial_cmp(&self, other: &Word) -> Option<Ordering> {
        Some(self.cmp(other))
    }
}
