ghost use Rattle.std.specs.Prelude.{◌<◌, None};
ghost use Rattle.fisb_wire.specs.Faults.{u64_count, u64_count-bound};

use crate::{Echo, run_in_memory};
use fisb_wire::{
    Bytes, Failed, FaithfulSource, MemorySink, MemorySource, Numbers, PieceSource, Source, StdSink,
};
use refusal_core::Reason;
use run_core::{Status, run};
use std::alloc::{AllocError, Global};
use std::io;
use std::io::Write;
use std::test::Fail;

const SCRIPT: &[u8] = b"---\n+one\n\n+two and three\n+four";

const OUTPUT: &[u8] = b"+one\n+two and three\n+four\n";

fn bytes(alloc: Global, items: &[u8]) -> Result<Bytes, AllocError> {
    Ok(Bytes::of(Vec::from_slice(alloc, items)?))
}

fn numbers(alloc: Global, items: &[u32]) -> Result<Numbers, AllocError> {
    Ok(Numbers::of(Vec::from_slice(alloc, items)?))
}

// `before`, the byte so many times, and `after`.
fn long_input(
    alloc: Global,
    before: &[u8],
    byte: u8,
    count: usize,
    after: &[u8],
) -> Result<Bytes, AllocError> {
    let mut text = Vec::from_slice(alloc, before)?;
    text.extend_from_slice(vec![in alloc; byte; count]?.as_slice())?;
    text.extend_from_slice(after)?;
    Ok(Bytes::of(text))
}

// A source that gives the bytes in reads of this size, and after so many of them as the room takes.
fn in_pieces(
    alloc: Global,
    input: Bytes,
    size: u32,
    count: usize,
) -> Result<PieceSource, AllocError>
    requires { 0 < size }
{
    let sizes = vec![in alloc; size; count]?;
    Ok(PieceSource::new(input, Numbers::of(sizes)))
}

// The status and the output of a run whose writes do not fail.
fn run_over<S: Source>(alloc: Global, source: &mut S) -> Result<(Status, Vec<u8>), AllocError> {
    let mut sink = MemorySink::new(alloc, 1024, numbers(alloc, &[])?)?;
    let status = run::<Echo, S, MemorySink>(alloc, source, &mut sink);
    Ok((status, Vec::from_slice(alloc, sink.bytes())?))
}

fn status_of(alloc: Global, input: Bytes) -> Result<Status, AllocError> {
    let mut source = FaithfulSource::new(input);
    Ok(run_over(alloc, &mut source)?.0)
}

fn refusal(line: u64, reason: Reason) -> Status {
    Status::Refused { line, reason }
}

#[test]
fn a_failed_read_ends_the_run_after_the_whole_lines(rt: HostRuntime) -> Result<(), Fail> {
    let rows = [
        (Status::ReadFault, b"".as_slice()),
        (Status::ReadFault, b"+one\n".as_slice()),
        (Status::ReadFault, b"+one\n+two and three\n".as_slice()),
        (Status::Done, OUTPUT),
    ];
    for (k, (status, output)) in rows.iter().enumerate() {
        let fails = numbers(rt.alloc(), &[k as u32])?;
        let mut source = MemorySource::new(bytes(rt.alloc(), SCRIPT)?, fails, 16);
        let ran = run_over(rt.alloc(), &mut source)?;
        assert_eq!(rt; ran.0, *status);
        assert_eq!(rt; ran.1.as_slice(), *output);
    }
    Ok(())
}

#[test]
fn a_failed_write_ends_the_run(rt: HostRuntime) -> Result<(), Fail> {
    let rows = [
        (Status::WriteFault, b"".as_slice()),
        (Status::WriteFault, b"+one\n".as_slice()),
        (Status::WriteFault, b"+one\n+two and three\n".as_slice()),
        (Status::Done, OUTPUT),
    ];
    for (k, (status, output)) in rows.iter().enumerate() {
        let mut source = FaithfulSource::new(bytes(rt.alloc(), SCRIPT)?);
        let mut sink = MemorySink::new(rt.alloc(), 99, numbers(rt.alloc(), &[k as u32])?)?;
        let ran = run::<Echo, FaithfulSource, MemorySink>(rt.alloc(), &mut source, &mut sink);
        assert_eq!(rt; ran, *status);
        assert_eq!(rt; sink.bytes(), *output);
    }
    Ok(())
}

// What the script gives that ends after so many bytes: the output as far as the lines go, without
// the empty one, and a newline after a part line.
fn output_of_front(alloc: Global, end: usize) -> Result<Vec<u8>, AllocError> {
    let size = end.saturating_sub(4);
    let size = if size < 6 { size } else { size - 1 };
    let front = OUTPUT.split_at(size.min(OUTPUT.len())).0;
    let mut output = Vec::from_slice(alloc, front)?;
    if let Some(last) = front.last() {
        if *last != b'\n' {
            output.push(b'\n')?;
        }
    }
    Ok(output)
}

#[test]
fn a_script_may_be_cut_after_each_byte(rt: HostRuntime) -> Result<(), Fail> {
    for end in 0..=SCRIPT.len() {
        let mut source = FaithfulSource::new(bytes(rt.alloc(), SCRIPT.split_at(end).0)?);
        let ran = run_over(rt.alloc(), &mut source)?;
        if end < 3 {
            assert_eq!(rt; ran.0, refusal(1, Reason::NoTable));
            assert_eq!(rt; ran.1.as_slice(), b"refused 1 notable\n".as_slice());
        } else {
            assert_eq!(rt; ran.0, Status::Done);
            let output = output_of_front(rt.alloc(), end)?;
            assert_eq!(rt; ran.1.as_slice(), output.as_slice());
        }
    }
    Ok(())
}

// What a run answers and writes over reads of this size, and after so many of them as the room
// takes.
fn in_reads_of(alloc: Global, size: u32, count: usize) -> Result<(Status, Vec<u8>), AllocError>
    requires { 0 < size }
{
    let mut source = in_pieces(alloc, bytes(alloc, SCRIPT)?, size, count)?;
    run_over(alloc, &mut source)
}

#[test]
fn the_sizes_of_the_reads_change_nothing(rt: HostRuntime) -> Result<(), Fail> {
    for size in [1, 7] {
        let ran = in_reads_of(rt.alloc(), size, 31)?;
        assert_eq!(rt; ran.0, Status::Done);
        assert_eq!(rt; ran.1.as_slice(), OUTPUT);
    }
    Ok(())
}

#[test]
fn an_input_may_be_read_at_once(rt: HostRuntime) -> Result<(), Fail> {
    let ran = in_reads_of(rt.alloc(), 1000, 0)?;
    assert_eq!(rt; ran.0, Status::Done);
    assert_eq!(rt; ran.1.as_slice(), OUTPUT);
    Ok(())
}

#[test]
fn nothing_is_read_after_a_refused_line(rt: HostRuntime) -> Result<(), Fail> {
    let input = long_input(rt.alloc(), b"---\nbad\n", b'#', 8000, b"")?;
    let mut source = in_pieces(rt.alloc(), input, 1, 8008)?;
    let ran = run_over(rt.alloc(), &mut source)?;
    assert_eq!(rt; ran.0, refusal(2, Reason::Syntax));
    assert_eq!(rt; ran.1.as_slice(), b"refused 2 syntax\n".as_slice());
    assert_eq!(rt; source.rest().len(), 8000);
    Ok(())
}

#[test]
fn lines_and_tables_have_a_greatest_length(rt: HostRuntime) -> Result<(), Fail> {
    let rows = [
        (
            b"---\n".as_slice(),
            b'a',
            32_769,
            b"".as_slice(),
            refusal(2, Reason::LineLong),
        ),
        (
            b"---\n".as_slice(),
            b'a',
            32_769,
            b"\n".as_slice(),
            refusal(2, Reason::LineLong),
        ),
        (
            b"---\n".as_slice(),
            b'a',
            32_768,
            b"\n".as_slice(),
            refusal(2, Reason::Syntax),
        ),
        (
            b"".as_slice(),
            b'#',
            65_541,
            b"".as_slice(),
            refusal(1, Reason::TableLong),
        ),
        (
            b"".as_slice(),
            b'#',
            65_540,
            b"".as_slice(),
            refusal(1, Reason::NoTable),
        ),
        (
            b"".as_slice(),
            b'#',
            65_535,
            b"\n---\n".as_slice(),
            Status::Done,
        ),
        (
            b"".as_slice(),
            b'#',
            65_535,
            b"\n---".as_slice(),
            Status::Done,
        ),
        (
            b"".as_slice(),
            b'#',
            65_536,
            b"\n---\n".as_slice(),
            refusal(1, Reason::TableLong),
        ),
        (
            b"".as_slice(),
            b'#',
            65_536,
            b"\n---".as_slice(),
            refusal(1, Reason::NoTable),
        ),
    ];
    for (before, byte, count, after, status) in rows {
        let input = long_input(rt.alloc(), before, byte, count, after)?;
        assert_eq!(rt; status_of(rt.alloc(), input)?, status);
    }
    Ok(())
}

// What a run answers and writes where the read of this number fails, of reads of 4,096 bytes.
fn without_read(alloc: Global, input: Bytes, number: u32) -> Result<(Status, Vec<u8>), AllocError> {
    let mut source = MemorySource::new(input, numbers(alloc, &[number])?, 4096);
    run_over(alloc, &mut source)
}

#[test]
fn a_part_line_that_is_too_long_is_refused_before_a_failed_read(
    rt: HostRuntime,
) -> Result<(), Fail> {
    let input = long_input(rt.alloc(), b"---\n", b'a', 32_769, b"")?;
    let ran = without_read(rt.alloc(), input, 9)?;
    assert_eq!(rt; ran.0, refusal(2, Reason::LineLong));
    let input = long_input(rt.alloc(), b"---\n", b'a', 32_768, b"")?;
    let ran = without_read(rt.alloc(), input, 9)?;
    assert_eq!(rt; ran.0, Status::ReadFault);
    Ok(())
}

#[test]
fn a_table_that_is_too_long_is_refused_before_a_failed_read(rt: HostRuntime) -> Result<(), Fail> {
    let input = long_input(rt.alloc(), b"", b'#', 65_541, b"")?;
    let ran = without_read(rt.alloc(), input, 17)?;
    assert_eq!(rt; ran.0, refusal(1, Reason::TableLong));
    let input = long_input(rt.alloc(), b"", b'#', 65_540, b"")?;
    let ran = without_read(rt.alloc(), input, 17)?;
    assert_eq!(rt; ran.0, Status::ReadFault);
    Ok(())
}

#[test]
fn a_line_is_refused_before_a_failed_read(rt: HostRuntime) -> Result<(), Fail> {
    let input = bytes(rt.alloc(), b"---\n+one\nbad\n+tw")?;
    let ran = without_read(rt.alloc(), input, 1)?;
    assert_eq!(rt; ran.0, refusal(3, Reason::Syntax));
    assert_eq!(rt; ran.1.as_slice(), b"+one\nrefused 3 syntax\n".as_slice());
    Ok(())
}

#[test]
fn a_sink_may_be_full_in_the_middle_of_a_line(rt: HostRuntime) -> Result<(), Fail> {
    let mut source = FaithfulSource::new(bytes(rt.alloc(), SCRIPT)?);
    let mut sink = MemorySink::new(rt.alloc(), 8, numbers(rt.alloc(), &[])?)?;
    let ran = run::<Echo, FaithfulSource, MemorySink>(rt.alloc(), &mut source, &mut sink);
    assert_eq!(rt; ran, Status::WriteFault);
    assert_eq!(rt; sink.bytes(), b"+one\n+tw".as_slice());
    Ok(())
}

/// A writer that takes one byte a call.
#[derive(Drop)]
struct OneByte {
    held: Vec<u8>,
}

impl Write for OneByte {
    fn write(&mut self, buf: &[u8]) -> io::Result<usize> {
        let size = buf.len().min(1);
        self.held.write(&buf[..size])
    }

    fn flush(&mut self) -> io::Result<()> {
        Ok(())
    }
}

#[test]
fn a_sink_may_take_one_byte_a_call(rt: HostRuntime) -> Result<(), Fail> {
    let mut source = FaithfulSource::new(bytes(rt.alloc(), SCRIPT)?);
    let mut writer = OneByte {
        held: Vec::new(rt.alloc()),
    };
    let mut sink = StdSink::new(&mut writer);
    let ran = run::<Echo, FaithfulSource, StdSink<&mut OneByte>>(
        rt.alloc(),
        &mut source,
        &mut sink,
    );
    assert_eq!(rt; ran, Status::Done);
    assert_eq!(rt; writer.held.as_slice(), OUTPUT);
    Ok(())
}

/// A source of a script without a table, each of whose lines begins with `#`. It has no end.
#[derive(Drop)]
struct Endless {
    // The most bytes that one read asked for.
    longest: usize,
    // How many bytes were given.
    given: usize,
}

impl Source for Endless {
    ghost left = { λ _. None };

    ghost faults = { λ _. u64_count 0 };

    ghost bounded = { λ _. u64_count-bound 0 };

    fn read(&mut self, room: &mut [u8]) -> Result<usize, Failed> {
        let size = room.len();
        let piece: &[u8] = if self.given > 0 { b"###\n" } else { b"---\n" };
        room.fill(b'#');
        if size >= 8 {
            room[..4].copy_from_slice(piece);
        }
        if let Some(last) = room.last_mut() {
            *last = b'\n';
        }
        self.longest = self.longest.max(size);
        self.given = self.given.saturating_add(size);
        Ok(size)
    }
}

#[test]
fn an_input_has_at_most_67108864_bytes(rt: HostRuntime) -> Result<(), Fail> {
    let mut source = Endless {
        longest: 0,
        given: 0,
    };
    let ran = run_over(rt.alloc(), &mut source)?;
    assert_eq!(rt; ran.0, Status::TooLong);
    assert_eq!(rt; ran.1.as_slice(), b"".as_slice());
    assert_eq!(rt; source.longest, 4_096);
    assert_eq!(rt; source.given, 67_108_865);
    Ok(())
}

#[test]
fn a_run_in_memory_is_done(rt: HostRuntime) -> Result<(), Fail> {
    let input = bytes(rt.alloc(), SCRIPT)?;
    let (status, sink) = run_in_memory::<Echo>(rt.alloc(), input, 100)?;
    assert_eq!(rt; status, Status::Done);
    assert_eq!(rt; sink.bytes(), OUTPUT);
    Ok(())
}
