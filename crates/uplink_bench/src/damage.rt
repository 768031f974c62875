//! Code words with wrong bytes at pseudo-random places.
use crate::words::{Row, next_word};
use rs_code::UplinkCode;
use std::io;

// Makes at most so many bytes of a word wrong, at pseudo-random places.
fn make_wrong(word: &mut [u8; 92], row: &mut Row, most: u8) {
    for _ in 0..most {
        let place = row.byte() as usize % 92;
        word[place] ^= 1 + row.byte() % 255;
    }
}

// In how many places two words differ.
fn count_wrong(word: &[u8; 92], other: &[u8; 92]) -> u8 {
    let mut count = 0u8;
    for place in 0..92 {
        if word[place] != other[place] {
            count = count.wrapping_add(1);
        }
    }
    count
}

/// Prints how many of so many words, each with 0 to 10 wrong bytes, became the word that they were made from, with the
/// number of their wrong bytes told.
pub fn print_mended(rt: &impl Print, count: u32) -> io::Result<()> {
    let code = UplinkCode::new();
    let mut row = Row::of(2);
    let mut mended = 0u32;
    let mut wrong = 0u32;
    for _ in 0..count {
        let sent = next_word(&code, &mut row);
        let mut heard = sent;
        let most = row.byte() % 11;
        make_wrong(&mut heard, &mut row, most);
        let changed = count_wrong(&heard, &sent);
        wrong = wrong.wrapping_add(u32::from(changed));
        if code.correct(&mut heard) == Ok(changed) {
            if heard == sent {
                mended = mended.wrapping_add(1);
            }
        }
    }
    println!(rt; "{mended} of {count} words came back, with {wrong} wrong bytes")
}

/// Prints a line for each of so many words with 0 to 12 wrong bytes: how many bytes are corrected, or that the word is lost,
/// and the word then.
pub fn print_answers(rt: &impl Print, count: u32) -> io::Result<()> {
    let code = UplinkCode::new();
    let mut row = Row::of(3);
    for _ in 0..count {
        let mut word = next_word(&code, &mut row);
        let most = row.byte() % 13;
        make_wrong(&mut word, &mut row, most);
        match code.correct(&mut word) {
            Ok(changed) => print!(rt; "{changed} ")?,
            Err(_) => print!(rt; "lost ")?,
        }
        for byte in &word {
            print!(rt; "{byte:02x}")?;
        }
        println!(rt; "")?;
    }
    Ok(())
}
