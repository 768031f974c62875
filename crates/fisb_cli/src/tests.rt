use crate::ending::run_args;
use fisb_wire::{Bytes, MemorySink, MemorySource, Numbers};
use std::alloc::{AllocError, Global};
use std::env::Args;
use std::io;
use std::io::ErrorKind;
use std::test::Fail;

const SCRIPT: &str = "---\ntext 1700000000 1699999980 METAR KSEA\nturn 1700000001 0\n\
    hear 1700000002 0\nshow 1700000003\n";

const PICTURE: &str = "sent 0 1700000001 0 1 15\nheard 1700000002 0 0 0 0 0 0 0 0\n\
    picture 1700000003 1\ntext METAR KSEA 1699999980 METAR KSEA\n";

// A command line of these words, the program's name first.
fn args(alloc: Global, words: &[&str]) -> Result<Args, AllocError> {
    let mut all = Vec::new(alloc);
    for word in words {
        all.push(String::from_str(alloc, *word)?)?;
    }
    Ok(all.into_iter())
}

fn source(alloc: Global, text: &str) -> Result<MemorySource, AllocError> {
    let input = Bytes::of(Vec::from_slice(alloc, text.as_bytes())?);
    Ok(MemorySource::new(input, Numbers::of(Vec::new(alloc)), 65_536))
}

fn sink(alloc: Global) -> Result<MemorySink, AllocError> {
    MemorySink::new(alloc, 1024, Numbers::of(Vec::new(alloc)))
}

#[test]
fn link_shows_the_text_that_was_sent_and_heard(rt: HostRuntime) -> Result<(), Fail> {
    let mut source = source(rt.alloc(), SCRIPT)?;
    let mut sink = sink(rt.alloc())?;
    let words = args(rt.alloc(), &["fisb", "link"])?;
    let number = run_args(rt.alloc(), Ok(words), &mut source, &mut sink);
    assert_eq!(rt; number, 0);
    assert_eq!(rt; sink.bytes(), PICTURE.as_bytes());
    Ok(())
}

#[test]
fn words_that_name_no_command_end_with_2(rt: HostRuntime) -> Result<(), Fail> {
    let mut source = source(rt.alloc(), SCRIPT)?;
    let mut sink = sink(rt.alloc())?;
    let words = args(rt.alloc(), &["link", "fisb"])?;
    let number = run_args(rt.alloc(), Ok(words), &mut source, &mut sink);
    assert_eq!(rt; number, 2);
    assert!(rt; sink.bytes().is_empty());
    Ok(())
}

#[test]
fn words_that_can_not_be_had_end_with_7_or_1(rt: HostRuntime) -> Result<(), Fail> {
    let mut source = source(rt.alloc(), SCRIPT)?;
    let mut sink = sink(rt.alloc())?;
    let no_memory = Err(io::Error::from(ErrorKind::OutOfMemory));
    let no_text = Err(io::Error::from(ErrorKind::InvalidData));
    assert_eq!(rt; run_args(rt.alloc(), no_memory, &mut source, &mut sink), 7);
    assert_eq!(rt; run_args(rt.alloc(), no_text, &mut source, &mut sink), 1);
    assert!(rt; sink.bytes().is_empty());
    Ok(())
}
