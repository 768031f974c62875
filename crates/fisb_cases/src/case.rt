//! One case: its name, its command and its script.

use crate::printing::{add_output, status_line};
use crate::script::script_of;
use fisb_app::{Status, run};
use fisb_wire::{Bytes, MemorySink, MemorySource, Numbers};
use std::alloc::{AllocError, Global};

/// How many bytes a case may write at least. It may write two more for each byte of its script.
const ROOM: usize = 65_536;

/// The most bytes of a read.
const PIECE: usize = 4_096;

/// Runs a case, and adds its name, its output and its status.
pub(crate) fn add_case(alloc: Global, part: &str, printed: &mut Vec<u8>) -> Result<(), AllocError> {
    let (head, tail) = part.split_once("\n$").unwrap_or((part, ""));
    let (words, script) = match tail.split_once('\n') {
        Some((words, lines)) => (words, script_of(alloc, lines)?),
        None => (tail, Vec::new(alloc)),
    };
    let name = head.split_once('\n').unwrap_or((head, "")).0;
    printed.extend_from_slice(b"== ")?;
    printed.extend_from_slice(name.as_bytes())?;
    printed.push(b'\n')?;
    let (status, output) = run_over(alloc, words, script)?;
    add_output(alloc, output.as_slice(), printed)?;
    printed.extend_from_slice(status_line(alloc, &status)?.as_bytes())
}

/// Runs the command of some words over a script, and answers its status and its output.
fn run_over(alloc: Global, words: &str, script: Vec<u8>) -> Result<(Status, Vec<u8>), AllocError> {
    let words = words_of(alloc, words)?;
    let room = script.len().saturating_mul(2).saturating_add(ROOM);
    let mut source = MemorySource::new(Bytes::of(script), Numbers::of(Vec::new(alloc)), PIECE);
    let mut sink = MemorySink::new(alloc, room, Numbers::of(Vec::new(alloc)))?;
    let status = run(alloc, words.as_slice(), &mut source, &mut sink);
    Ok((status, Vec::from_slice(alloc, sink.bytes())?))
}

/// The words of a command line: each stands after a space.
fn words_of(alloc: Global, line: &str) -> Result<Vec<String>, AllocError> {
    let mut words = Vec::new(alloc);
    for word in line.split(' ').skip(1) {
        words.push(String::from_str(alloc, word)?)?;
    }
    Ok(words)
}
