//! Pseudo-random words, for a comparison with another program.
ghost use Rattle.std.specs.Prelude.{◌≡◌, ◌+◌, ◌*◌, ◌%◌, ◌/◌, ◌^◌, ◌<◌};

use rs_code::UplinkCode;
use std::io;

/// A pseudo-random row of numbers below 2^32.
#[derive(Clone, Copy)]
pub struct Row {
    number: u32,
}

impl Row {
    /// The row that begins with this number.
    pub fn of(number: u32) -> Self
        ensures { result.number ≡ number }
    {
        Row { number }
    }

    /// Goes to the next number, and gives its first byte.
    pub fn byte(&mut self) -> u8
        ensures next { self.new.number
            ≡ (self.old.number * 1664525 % 2 ^ 32 + 1013904223) % 2 ^ 32 }
        ensures first { result ≡ self.new.number / 2 ^ 24 }
    {
        self.number = self.number.wrapping_mul(1664525).wrapping_add(1013904223);
        (self.number >> 24) as u8
    }
}

/// A word with a pseudo-random message, and the parity of it.
pub fn next_word(code: &UplinkCode, row: &mut Row) -> [u8; 92] {
    let mut word = [0; 92];
    for place in 0..72 {
        word[place] = row.byte();
    }
    code.encode(&mut word);
    word
}

// Prints the parity of a word.
fn print_parity(rt: &impl Print, word: &[u8; 92]) -> io::Result<()> {
    for place in 72..92 {
        print!(rt; "{:02x}", word[place])?;
    }
    Ok(())
}

/// Prints a line for each of so many words: the parity of its message, and whether it is a code word once one byte was
/// changed. In about half of the words the change is 0.
pub fn print_words(rt: &impl Print, count: u32) -> io::Result<()> {
    let code = UplinkCode::new();
    let mut row = Row::of(1);
    for _ in 0..count {
        let mut word = next_word(&code, &mut row);
        print_parity(rt, &word)?;
        let change = row.byte();
        if change < 128 {
            let place = row.byte() as usize % 92;
            word[place] ^= change;
        }
        let verdict = if code.is_codeword(&word) { "yes" } else { "no" };
        println!(rt; " {verdict}")?;
    }
    Ok(())
}
