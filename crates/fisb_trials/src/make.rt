//! Summaries of workloads, and a receiver that finds no memory.

use crate::tests::Mute;
use fisb_app::{Status, run_make, run_make_over};
use fisb_wire::{MemorySink, Numbers};
use std::alloc::{AllocError, Global};
use std::test::Fail;

fn new_sink(alloc: Global) -> Result<MemorySink, AllocError> {
    MemorySink::new(alloc, 1024, Numbers::of(Vec::new(alloc)))
}

// What is written for a minute from seed 1.
fn summary(alloc: Global) -> Result<(Status, Vec<u8>), AllocError> {
    let mut sink = new_sink(alloc)?;
    let status = run_make(alloc, 1, 1, &mut sink);
    Ok((status, Vec::from_slice(alloc, sink.bytes())?))
}

// The number that a word spells.
fn number(word: &[u8]) -> u64 {
    let mut value = 0u64;
    for byte in word {
        let digit = u64::from(byte.saturating_sub(b'0'));
        value = value.saturating_mul(10).saturating_add(digit);
    }
    value
}

// The number after a name in a summary.
fn number_behind(summary: &[u8], name: &[u8]) -> Option<u64> {
    let mut is_next = false;
    for word in summary.split(|byte| *byte == b' ') {
        if is_next {
            return Some(number(word));
        }
        is_next = word == name;
    }
    None
}

#[test]
fn each_frame_of_a_minute_is_heard_or_lost(rt: HostRuntime) -> Result<(), Fail> {
    let (status, text) = summary(rt.alloc())?;
    let text = text.as_slice();
    assert_eq!(rt; status, Status::Done);
    assert!(rt; text.starts_with(b"make 1 1 updates "));
    assert_eq!(rt; number_behind(text, b"turns"), Some(60));
    let heard = number_behind(text, b"heard").unwrap_or(0);
    let lost = number_behind(text, b"lost").unwrap_or(0);
    assert_eq!(rt; heard.saturating_add(lost), 60);
    Ok(())
}

#[test]
fn a_second_run_writes_the_same(rt: HostRuntime) -> Result<(), Fail> {
    let first = summary(rt.alloc())?;
    let second = summary(rt.alloc())?;
    assert_eq!(rt; first.1.as_slice(), second.1.as_slice());
    Ok(())
}

#[test]
fn frames_of_a_workload_go_to_the_receiver(rt: HostRuntime) -> Result<(), Fail> {
    let mut sink = new_sink(rt.alloc())?;
    let status = run_make_over::<MemorySink, Mute>(rt.alloc(), 1, 1, &mut sink);
    assert_eq!(rt; status, Status::NoMemory);
    assert_eq!(rt; sink.bytes(), b"".as_slice());
    Ok(())
}
