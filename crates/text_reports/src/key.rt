//! The key of a report.
ghost use Rattle.std.specs.Prelude.{◌≡◌, IfOk, IfErr, Ok};
ghost use Rattle.text_reports.specs.TextKey.{IsWord, text_key, text_key_cmp, words_of};
ghost use Rattle.text_reports.specs.Views.{key_view, IsFault, third_of, IsThirdFault};

use crate::cut::first_word;
use crate::word::Word;
use life_table::LifeTable;
use std::alloc::{AllocError, Global};
use std::cmp::Ordering;
use thiserror::Error;

/// What names a report. Keys are ordered by type, place and third word, each by its bytes; a key without a third word comes
/// before those with one.
#[derive(Debug, Drop, PartialEq, Eq, PartialOrd, Ord)]
pub struct TextKey {
    /// The type, as the life table names it.
    pub kind: Word,
    /// The second word of the report: the place.
    pub place: Word,
    /// The third word, for the types whose key has one.
    pub third: Option<Word>,
}

/// Why a text has no key.
#[derive(Clone, Copy, Debug, PartialEq, Eq, Error)]
pub enum KeyFault {
    /// The text has fewer words than its key.
    #[error("the text has fewer words than its key")]
    FewWords,
    /// No row of the table has the type of the report.
    #[error("the table has no row of this type")]
    Unlisted,
    /// Memory ran out.
    #[error("no memory is left")]
    NoMemory,
}

impl TextKey {
    /// The same key again.
    pub fn copy(&self, alloc: Global) -> Result<TextKey, AllocError>
        ensures { IfOk result (λ copy. copy ≡ self.now) }
    {
        let third = match &self.third {
            Some(word) => Some(word.copy(alloc)?),
            None => None,
        };
        Ok(TextKey {
            kind: self.kind.copy(alloc)?,
            place: self.place.copy(alloc)?,
            third,
        })
    }
}

/// The key of a report.
///
/// # Errors
///
/// `FewWords` where the text has fewer than two words, or two where the row of its type asks for three; `Unlisted` where it
/// has two and the table has no row of the first. `NoMemory` where memory runs out.
pub fn key_of(alloc: Global, table: &LifeTable, text: &str) -> Result<TextKey, KeyFault>
    ensures key { IfOk result (λ key. text_key table.now text.now ≡ Ok (key_view key)) }
    ensures fault { IfErr result (λ fault. IsFault fault (text_key table.now text.now)) }
{
    let Some((first, behind)) = first_word(text) else {
        return Err(KeyFault::FewWords);
    };
    let Some((place, behind)) = first_word(behind) else {
        return Err(KeyFault::FewWords);
    };
    let Some(row) = table.text_row(first) else {
        return Err(KeyFault::Unlisted);
    };
    let third = third_word(alloc, row.words, behind)?;
    Ok(TextKey {
        kind: word_of(alloc, row.kind)?,
        place: word_of(alloc, place)?,
        third,
    })
}

/// The third word of a key of so many words, of the text after the second.
fn third_word(alloc: Global, words: u8, behind: &str) -> Result<Option<Word>, KeyFault>
    ensures third { IfOk result (λ third. third_of words (words_of behind.now) ≡ Ok third) }
    ensures fault { IfErr result
        (λ fault. IsThirdFault fault (third_of words (words_of behind.now))) }
{
    let third = first_word(behind);
    if words != 3 {
        return Ok(None);
    }
    match third {
        Some((third, _)) => Ok(Some(word_of(alloc, third)?)),
        None => Err(KeyFault::FewWords),
    }
}

fn word_of(alloc: Global, text: &str) -> Result<Word, KeyFault>
    requires { IsWord text.now }
    ensures word { IfOk result (λ word. word ≡ text.now) }
    ensures memory { IfErr result (λ fault. fault ≡ KeyFault.NoMemory) }
{
    Word::of(alloc, text).map_err(|_| KeyFault::NoMemory)
}

/// The order of two keys, in the words of its definition.
pub fn order_of_text_keys(one: &TextKey, other: &TextKey) -> Ordering
    ensures { result ≡ text_key_cmp (key_view one.now) (key_view other.now) }
{
    one.cmp(other)
}
