//! The text of a report while it is read.
ghost use Rattle.std.specs.Prelude.{◌≡◌, [], ◌∷◌, ◌++◌, length, IfOk, IsTrue, replicate, nat_eq};
ghost use Rattle.std.specs.String.{string_bytes};
ghost use Rattle.dlac_text.specs.Alphabet.{IsDlac, is_in_alphabet};

use std::alloc::{AllocError, Global};
use std::marker::Model;

/// The text of a report as far as it was read: characters of the DLAC alphabet, a byte each.
#[derive(Drop)]
pub(crate) struct Draft {
    characters: Vec<u8>,
}

impl Model for Draft {
    ghost use Rattle.std.specs.Prelude.{List, ℕ};
    ghost use Rattle.dlac_text.specs.Alphabet.{IsDlac};

    ghost Value = { List ℕ };

    ghost view = { λ d. d.characters.items };

    ghost invariant = { λ d. IsDlac d.characters.items };
}

impl Draft {
    /// A text without characters.
    pub(crate) fn new(alloc: Global) -> Draft
        ensures { result ≡ [] }
    {
        Draft {
            characters: Vec::new(alloc),
        }
    }

    /// A text without characters, with room for a number of them.
    pub(crate) fn with_room(alloc: Global, room: usize) -> Result<Draft, AllocError>
        ensures { IfOk result (λ draft. draft ≡ []) }
    {
        Ok(Draft {
            characters: Vec::with_capacity(alloc, room)?,
        })
    }

    /// Whether there is no character.
    pub(crate) fn is_empty(&self) -> bool
        ensures { result ≡ nat_eq (length self.now) 0 }
    {
        self.characters.is_empty()
    }

    /// Puts a character at the end.
    pub(crate) fn push(&mut self, character: u8) -> Result<(), AllocError>
        requires { IsTrue (is_in_alphabet character) }
        ensures { IfOk result (λ _. self.new ≡ self.old ++ character ∷ []) }
    {
        self.characters.push(character)?;
        Ok(())
    }

    /// Puts four characters at the end.
    pub(crate) fn push_four(&mut self, characters: [u8; 4]) -> Result<(), AllocError>
        requires { IsDlac characters }
        ensures { IfOk result (λ _. self.new ≡ self.old ++ characters) }
    {
        self.characters.extend_from_slice(&characters)?;
        Ok(())
    }

    /// Puts a number of spaces at the end.
    pub(crate) fn push_spaces(&mut self, number: u8) -> Result<(), AllocError>
        ensures { IfOk result (λ _. self.new ≡ self.old ++ replicate number 32) }
    {
        for _ in 0..number {
            self.push(b' ')?;
        }
        Ok(())
    }

    /// The text, whose characters are all ASCII.
    #[tactic(auto, using(crate::proofs::Characters::utf8_of_dlac))]
    pub(crate) fn into_text(self) -> String
        ensures { string_bytes result ≡ self }
    {
        String::from_utf8(self.characters).unwrap()
    }
}
