//! The text of a report that is given.
ghost use Rattle.std.specs.Prelude.{◌≡◌, ◌<◌, [], ◌∷◌, ◌++◌, IfOk};
ghost use Rattle.workload.specs.Texts.{digit, five_digits, two_digits};

use std::alloc::{AllocError, Global};
use std::marker::Model;

/// The text of a report: ASCII characters.
#[derive(Debug, Drop)]
pub struct ReportText {
    text: String,
}

impl Model for ReportText {
    ghost use Rattle.std.specs.Prelude.{List, ℕ};
    ghost use Rattle.std.specs.String.{string_bytes};

    ghost Value = { List ℕ };

    ghost view = { λ r. string_bytes r.text };
}

impl ReportText {
    /// The whole text.
    pub fn all(&self) -> &str
        ensures { result.now ≡ self.now }
    {
        self.text.as_str()
    }

    /// A text.
    pub(crate) fn of(alloc: Global, text: &str) -> Result<ReportText, AllocError>
        ensures { IfOk result (λ report. report ≡ text.now) }
    {
        Ok(ReportText {
            text: String::from_str(alloc, text)?,
        })
    }

    /// Puts an ASCII character at the end.
    pub(crate) fn push(&mut self, character: char) -> Result<(), AllocError>
        requires { character < 128 }
        ensures { IfOk result (λ _. self.new ≡ self.old ++ character ∷ []) }
    {
        self.text.push(character)?;
        Ok(())
    }

    /// Puts a text at the end.
    pub(crate) fn push_str(&mut self, text: &str) -> Result<(), AllocError>
        ensures { IfOk result (λ _. self.new ≡ self.old ++ text.now) }
    {
        self.text.push_str(text)?;
        Ok(())
    }

    /// Puts a number of two digits at the end.
    pub(crate) fn push_two_digits(&mut self, number: u32) -> Result<(), AllocError>
        ensures { IfOk result (λ _. self.new ≡ self.old ++ two_digits number) }
    {
        self.push(digit(number / 10))?;
        self.push(digit(number))
    }

    /// Puts a number of five digits at the end.
    pub(crate) fn push_five_digits(&mut self, number: u32) -> Result<(), AllocError>
        ensures { IfOk result (λ _. self.new ≡ self.old ++ five_digits number) }
    {
        self.push(digit(number / 10_000))?;
        self.push(digit(number / 1_000))?;
        self.push(digit(number / 100))?;
        self.push(digit(number / 10))?;
        self.push(digit(number))
    }
}

/// The last digit of a number.
fn digit(number: u32) -> char
    ensures value { result ≡ digit number }
    ensures ascii { result < 128 }
{
    char::from(b'0' + (number % 10) as u8)
}
