//! Weaves a number of frames, which the first argument names, unweaves each of them as often as the second argument
//! names, with as many wrong bytes in each block as the third argument names, and prints a checksum. With no arguments these
//! are two frames, each unwoven once with no wrong byte. Each frame changes a byte of one block's message, by a parity byte
//! of the block that the frame before it changed, so that no frame can be left out.
//! Then prints as many pseudo-random words as the fourth argument names; corrects as many damaged words as the fifth argument
//! names, and compares them with what they were made from; and prints as many answers about damaged words as the sixth
//! argument names. Without these arguments there are none.
#![tactic(auto)]

mod damage;
mod words;

ghost use Rattle.std.specs.Prelude.{◌≡◌, ◌+◌, ◌*◌, ◌%◌, ◌^◌, None, fold};

use damage::{print_answers, print_mended};
use std::{env, io};
use uplink_weave::{unweave, weave};
use words::print_words;

// The number that an argument names.
fn number_in(word: Option<String>, default: u32) -> u32
    ensures { word ≡ None → result ≡ default }
{
    match word {
        Some(word) => word.as_str().parse::<u32>().unwrap_or(default),
        None => default,
    }
}

// A number that depends on each of these bytes.
fn checksum(bytes: &[u8]) -> u32
    ensures { result ≡ fold (λ sum byte. (sum * 31 % 2 ^ 32 + byte) % 2 ^ 32) 0 bytes.now }
{
    bytes.iter().fold(
        0u32,
        |sum, byte| sum.wrapping_mul(31).wrapping_add(u32::from(*byte)),
    )
}

// Unweaves a frame so often, and gives the sum of the checksums of the counts.
fn unweave_often(air: &[u8; 552], payload: &mut [u8; 432], turns: u32) -> u32 {
    let mut corrected = 0u32;
    for _ in 0..turns {
        if let Ok(counts) = unweave(air, payload) {
            corrected = corrected.wrapping_add(checksum(&counts));
        }
    }
    corrected
}

// Makes so many bytes of each block of a frame wrong.
fn make_wrong(air: &mut [u8; 552], wrong: u32) {
    for k in 0..wrong {
        let place = 9 * (k as usize % 92) % 92;
        for number in 0..6 {
            air[6 * place + number] ^= 0x55;
        }
    }
}

// The frames, and the checksum of the last one and of its payload as it came back.
fn work(frames: u32, turns: u32, wrong: u32) -> u32 {
    let mut payload = [0x5a; 432];
    let mut air = [0; 552];
    let mut back = [0; 432];
    let mut corrected = 0u32;
    // the last parity byte of the block that was changed last
    let mut parity = 0u8;
    for frame in 0..frames {
        let place = frame as usize % 432;
        payload[place] = parity.wrapping_add((frame % 256) as u8);
        weave(&payload, &mut air);
        parity = air[546 + place / 72];
        let mut heard = air;
        make_wrong(&mut heard, wrong);
        corrected = corrected.wrapping_add(unweave_often(&heard, &mut back, turns));
    }
    checksum(&air) ^ checksum(&back) ^ corrected
}

fn main(rt: HostRuntime) -> io::Result<()> {
    let mut arguments = env::args(&rt)?;
    arguments.next();
    let frames = number_in(arguments.next(), 2);
    let turns = number_in(arguments.next(), 1);
    let wrong = number_in(arguments.next(), 0);
    let sum = work(frames, turns, wrong);
    println!(rt; "{sum}")?;
    print_words(&rt, number_in(arguments.next(), 0))?;
    print_mended(&rt, number_in(arguments.next(), 0))?;
    print_answers(&rt, number_in(arguments.next(), 0))
}
