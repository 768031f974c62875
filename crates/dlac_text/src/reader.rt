//! Reports while their codes are read.
ghost use Rattle.std.specs.Prelude.{◌≡◌, ◌≢◌, ◌<◌, [], ◌∷◌, ◌++◌, length, filter, IfOk, OnOk, true};
ghost use Rattle.std.specs.Prelude.{false};
ghost use Rattle.dlac_text.specs.Alphabet.{IsDlac, character_or_zero};
ghost use Rattle.dlac_text.specs.Reading.{HasRead, reports_with};
ghost use Rattle.dlac_text.specs.Reports.{has_characters};
ghost use Rattle.dlac_text.specs.SixBits.{six_bit_groups};

use crate::alphabet::character_or_zero;
use crate::draft::Draft;
use crate::report_text::Report;
use std::alloc::{AllocError, Global};
use std::marker::Model;
use std::mem;

// The codes that end a report, and the one whose next code is a number of spaces.
const END: u8 = 0;

const TAB: u8 = 28;

const OTHER_END: u8 = 29;

/// The reports of some codes as far as these were read.
#[derive(Drop)]
pub(crate) struct Reader {
    alloc: Global,
    /// The room with which a text begins; a longer one grows.
    room: usize,
    found: Vec<Report>,
    text: Draft,
    is_tab: bool,
}

impl Model for Reader {
    ghost use Rattle.dlac_text.specs.Reading.{Reading};

    ghost Value = { Reading };

    ghost view = { λ r. record { reports = r.found.items; text = r.text; is_tab = r.is_tab } };
}

impl Reader {
    /// A reader that has read no code, with the room with which texts begin. Most payloads have one
    /// report, for which there is room.
    pub(crate) fn new(alloc: Global, room: usize) -> Result<Reader, AllocError>
        ensures { IfOk result
            (λ reader. reader ≡ record { reports = []; text = []; is_tab = false }) }
    {
        Ok(Reader {
            alloc,
            room,
            found: Vec::with_capacity(alloc, 1)?,
            text: Draft::new(alloc),
            is_tab: false,
        })
    }

    /// Reads the four codes of three bytes.
    pub(crate) fn take_three(&mut self, x: u8, y: u8, z: u8) -> Result<(), AllocError>
        ensures { OnOk result (HasRead (six_bit_groups (x ∷ y ∷ z ∷ [])) self.old self.new) }
    {
        let (first, second) = (x / 4, x % 4 * 16 + y / 16);
        let (third, fourth) = (y % 16 * 4 + z / 64, z % 64);
        let a = character_or_zero(first);
        let b = character_or_zero(second);
        let c = character_or_zero(third);
        let d = character_or_zero(fourth);
        if !self.is_tab && are_characters(a, b, c, d) {
            return self.push_four([a, b, c, d]);
        }
        self.take(first)?;
        self.take(second)?;
        self.take(third)?;
        self.take(fourth)
    }

    /// Reads the codes of the last bytes, of which there are at most two.
    pub(crate) fn take_last(&mut self, bytes: &[u8]) -> Result<(), AllocError>
        requires { length bytes.now < 3 }
        ensures { OnOk result (HasRead (six_bit_groups bytes.now) self.old self.new) }
    {
        match bytes {
            [x, y] => {
                self.take(*x / 4)?;
                self.take(*x % 4 * 16 + *y / 16)
            }
            [x] => self.take(*x / 4),
            _ => Ok(()),
        }
    }

    /// Ends the last report, and answers all.
    pub(crate) fn finish(self) -> Result<Vec<Report>, AllocError>
        ensures { IfOk result (λ found. found.items ≡ reports_with self []) }
    {
        let mut reader = self;
        reader.end_report()?;
        Ok(reader.found)
    }

    /// Reads a code.
    fn take(&mut self, code: u8) -> Result<(), AllocError>
        requires { code < 64 }
        ensures { OnOk result (HasRead (code ∷ []) self.old self.new) }
    {
        if self.is_tab {
            self.is_tab = false;
            return self.text.push_spaces(code);
        }
        match code {
            END | OTHER_END => self.end_report(),
            TAB => {
                self.is_tab = true;
                Ok(())
            }
            symbol => {
                self.begin_text()?;
                self.text.push(character_or_zero(symbol))
            }
        }
    }

    /// Puts four characters at the end of the text.
    fn push_four(&mut self, characters: [u8; 4]) -> Result<(), AllocError>
        requires { IsDlac characters }
        ensures { OnOk result
            (self.new ≡ record self.old { text = self.old.text ++ characters }) }
    {
        self.begin_text()?;
        self.text.push_four(characters)
    }

    /// Makes room for a text where it is empty.
    fn begin_text(&mut self) -> Result<(), AllocError>
        ensures { self.new ≡ self.old }
    {
        if self.text.is_empty() {
            self.text = Draft::with_room(self.alloc, self.room)?;
        }
        Ok(())
    }

    /// Puts the text after the reports, unless it is empty, and begins an empty one.
    fn end_report(&mut self) -> Result<(), AllocError>
        ensures { OnOk result (self.new ≡ record self.old {
          reports = self.old.reports ++ filter has_characters (self.old.text ∷ []);
          text = [];
        }) }
    {
        if !self.text.is_empty() {
            let text = mem::replace(&mut self.text, Draft::new(self.alloc));
            self.found.push(Report::of(text))?;
        }
        Ok(())
    }
}

/// Whether none of four bytes is 0.
fn are_characters(a: u8, b: u8, c: u8, d: u8) -> bool
    ensures { result ≡ true → (a ≢ 0) × (b ≢ 0) × (c ≢ 0) × (d ≢ 0) }
{
    a != 0 && b != 0 && c != 0 && d != 0
}
