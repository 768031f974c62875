//! The text of a report.
ghost use Rattle.std.specs.Prelude.{◌≡◌, ◌<◌, length, slice_index, IfOk, nat_eq};
ghost use Rattle.std.specs.Cmp.Lexicographic.{pointwise};
ghost use Rattle.std.proofs.Common.{rules};
ghost use Rattle.std.specs.Cmp.Rules.{comparing};
ghost use Rattle.dlac_text.specs.Alphabet.{IsDlac};

use crate::draft::Draft;
use std::alloc::{AllocError, Global};
use std::marker::Model;

/// The text of a report: characters of the DLAC alphabet, which are all ASCII.
#[derive(Debug, Drop)]
pub struct Report {
    text: String,
}

impl Model for Report {
    ghost use Rattle.std.specs.Prelude.{List, ℕ};
    ghost use Rattle.std.specs.String.{string_bytes};
    ghost use Rattle.dlac_text.specs.Alphabet.{IsDlac};

    ghost Value = { List ℕ };

    ghost view = { λ r. string_bytes r.text };

    ghost invariant = { λ r. IsDlac (string_bytes r.text) };
}

impl Report {
    /// The number of characters.
    pub fn len(&self) -> usize
        ensures { result ≡ length self.now }
    {
        self.text.len()
    }

    /// Whether there is no character.
    pub fn is_empty(&self) -> bool
        ensures { result ≡ nat_eq (length self.now) 0 }
    {
        self.text.is_empty()
    }

    /// The character at a place, counted from 0.
    pub fn at(&self, place: usize) -> char
        requires { place < length self.now }
        ensures { result ≡ slice_index self.now place }
    {
        char::from(self.text.as_bytes()[place])
    }

    /// The whole text.
    pub fn all(&self) -> &str
        ensures text { result.now ≡ self.now }
        ensures alphabet { IsDlac self.now }
    {
        self.text.as_str()
    }

    /// The same text again.
    pub fn copy(&self, alloc: Global) -> Result<Report, AllocError>
        ensures { IfOk result (λ copy. copy ≡ self.now) }
    {
        Ok(Report {
            text: String::from_str(alloc, self.text.as_str())?,
        })
    }

    /// The report that was read.
    pub(crate) fn of(draft: Draft) -> Report
        ensures { result ≡ draft }
    {
        Report {
            text: draft.into_text(),
        }
    }
}

impl PartialEq for Report {
    ghost eq = { pointwise nat_eq };

    ghost laws = { Prim.search (comparing, rules) };

    fn eq(&self, other: &Report) -> bool {
        self.text.as_str() == other.text.as_str()
    }
}

impl Eq for Report {
    ghost laws = { Prim.search (comparing, rules) };
}
