//! Payloads of many reports, and a receiver that keeps many.
ghost use Rattle.std.specs.Prelude.{◌<◌};

use crate::tests::{NOW, entries_at, hear_bytes, new_receiver};
use receiver_core::Receiver;
use std::alloc::Global;
use std::test::Fail;

/// A frame with the report `METAR K` of 22:13 and three further letters, by their places in the
/// alphabet: its key has two words.
fn metar(first: u8, second: u8, third: u8) -> [u8; 15]
    requires first { first < 16 }
    requires second { second < 16 }
    requires third { third < 64 }
{
    [
        0x06,
        0x80,
        0x06,
        0x74,
        0x58,
        0xD0,
        0x34,
        0x55,
        0x01,
        0x4A,
        0x02,
        0xC0 + first,
        third * 4,
        second * 16,
        0x00,
    ]
}

/// A frame with the report `PIREP KA AA` of 22:13, and these letters in place of the three `A`: its
/// key has three words.
fn pirep(first: u8, second: u8, third: u8) -> [u8; 15]
    requires first { first < 16 }
    requires second { second < 16 }
    requires third { third < 64 }
{
    [
        0x06,
        0x80,
        0x06,
        0x74,
        0x58,
        0xD0,
        0x40,
        0x94,
        0x85,
        0x42,
        0x02,
        0xC0 + first,
        0x80,
        second * 16 + third / 4,
        third % 4 * 64,
    ]
}

/// Twenty reports of two words, which differ in one letter.
fn twenty_metars(alloc: Global, first: u8, second: u8) -> Result<Vec<u8>, Fail>
    requires first { first < 16 }
    requires second { second < 16 }
{
    let mut data = Vec::new(alloc);
    for third in 1..21 {
        data.extend_from_slice(&metar(first, second, third))?;
    }
    Ok(data)
}

/// Twenty reports of three words, which differ in one letter.
fn twenty_pireps(alloc: Global, first: u8, second: u8) -> Result<Vec<u8>, Fail>
    requires first { first < 16 }
    requires second { second < 16 }
{
    let mut data = Vec::new(alloc);
    for third in 1..21 {
        data.extend_from_slice(&pirep(first, second, third))?;
    }
    Ok(data)
}

/// Hears 400 reports of one letter, of which no two have the same key.
fn hear_four_hundred(receiver: &mut Receiver, alloc: Global, first: u8) -> Result<(), Fail>
    requires { first < 16 }
{
    for second in 1..11 {
        let metars = twenty_metars(alloc, first, second)?;
        hear_bytes(receiver, NOW, metars.as_slice())?;
        let pireps = twenty_pireps(alloc, first, second)?;
        hear_bytes(receiver, NOW, pireps.as_slice())?;
    }
    Ok(())
}

/// Hears five times as many.
fn hear_two_thousand(receiver: &mut Receiver, alloc: Global) -> Result<(), Fail> {
    for first in 1..6 {
        hear_four_hundred(receiver, alloc, first)?;
    }
    Ok(())
}

#[test]
fn a_payload_of_twelve_reports_is_heard_whole(rt: HostRuntime) -> Result<(), Fail> {
    let mut receiver = new_receiver(rt.alloc())?;
    let mut data = Vec::new(rt.alloc());
    for third in 1..13 {
        data.extend_from_slice(&metar(1, 2, third))?;
    }
    let answer = hear_bytes(&mut receiver, NOW, data.as_slice())?;
    assert!(rt; answer.unread.is_empty());
    assert_eq!(rt; entries_at(&receiver, rt.alloc(), NOW + 1)?, 12);
    Ok(())
}

#[test]
fn two_thousand_reports_are_kept_and_shown(rt: HostRuntime) -> Result<(), Fail> {
    let mut receiver = new_receiver(rt.alloc())?;
    hear_two_thousand(&mut receiver, rt.alloc())?;
    assert_eq!(rt; entries_at(&receiver, rt.alloc(), NOW + 1)?, 2000);
    assert_eq!(rt; entries_at(&receiver, rt.alloc(), 1_700_007_180)?, 1000);
    Ok(())
}
