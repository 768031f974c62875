ghost use Rattle.std.specs.Prelude.{◌≡◌, ◌≤◌, length, IfOk};
ghost use Rattle.fisb_wire.specs.Ends.{FitsSpare};

use fisb_wire::{
    Bytes, Failed, FaithfulSink, FaithfulSource, MemorySink, MemorySource, Numbers, PieceSource,
    Sink, Source, StdSink, StdSource,
};
use std::alloc::{AllocError, Global};
use std::io;
use std::io::{Read, Write};
use std::test::Fail;

fn bytes(alloc: Global, items: &[u8]) -> Result<Bytes, AllocError> {
    Ok(Bytes::of(Vec::from_slice(alloc, items)?))
}

fn numbers(alloc: Global, items: &[u32]) -> Result<Numbers, AllocError>
    ensures { IfOk result (λ list. list ≡ items.now) }
{
    Ok(Numbers::of(Vec::from_slice(alloc, items)?))
}

// One read of any source.
fn read<S: Source>(source: &mut S, room: &mut [u8]) -> Result<usize, Failed> {
    source.read(room)
}

// One write into any sink.
fn write<K: Sink>(sink: &mut K, piece: &[u8]) -> Result<usize, Failed>
    requires { FitsSpare (K.spare sink.old) (length piece.now) }
{
    sink.write(piece)
}

#[test]
fn a_list_has_the_items_of_its_vector(rt: HostRuntime) -> Result<(), Fail> {
    let letters = bytes(rt.alloc(), b"abc")?;
    assert_eq!(rt; letters.len(), 3);
    assert_eq!(rt; letters.at(2), b'c');
    assert_eq!(rt; letters.all(), b"abc".as_slice());
    let calls = numbers(rt.alloc(), &[7, 70_000])?;
    assert_eq!(rt; calls.len(), 2);
    assert_eq!(rt; calls.at(1), 70_000);
    assert_eq!(rt; calls.all(), [7, 70_000].as_slice());
    Ok(())
}

#[test]
fn a_memory_source_gives_its_bytes_in_pieces_and_fails_at_the_listed_calls(
    rt: HostRuntime,
) -> Result<(), Fail> {
    let input = bytes(rt.alloc(), b"abcde")?;
    let mut source = MemorySource::new(input, numbers(rt.alloc(), &[0, 2])?, 9);
    let mut room = *b"--";
    let answers = [
        (Err(Failed), *b"--"),
        (Ok(2), *b"ab"),
        (Err(Failed), *b"ab"),
        (Ok(2), *b"cd"),
        (Ok(1), *b"ed"),
        (Ok(0), *b"ed"),
        (Ok(0), *b"ed"),
    ];
    for (answer, after) in answers {
        assert_eq!(rt; read(&mut source, &mut room), answer);
        assert_eq!(rt; room, after);
    }
    Ok(())
}

#[test]
fn a_memory_sink_fills_its_room_and_then_fails(rt: HostRuntime) -> Result<(), Fail> {
    let mut sink = MemorySink::new(rt.alloc(), 3, numbers(rt.alloc(), &[])?)?;
    let answers = [
        (b"ab".as_slice(), Ok(2)),
        (b"cd".as_slice(), Ok(1)),
        (b"d".as_slice(), Err(Failed)),
        (b"".as_slice(), Ok(0)),
    ];
    for (piece, answer) in answers {
        assert_eq!(rt; write(&mut sink, piece), answer);
    }
    assert_eq!(rt; sink.bytes(), b"abc".as_slice());
    Ok(())
}

#[test]
fn a_memory_sink_fails_at_the_listed_calls(rt: HostRuntime) -> Result<(), Fail> {
    let mut sink = MemorySink::new(rt.alloc(), 9, numbers(rt.alloc(), &[1, 2])?)?;
    let answers = [
        (b"ab".as_slice(), Ok(2)),
        (b"cd".as_slice(), Err(Failed)),
        (b"".as_slice(), Err(Failed)),
        (b"cd".as_slice(), Ok(2)),
    ];
    for (piece, answer) in answers {
        assert_eq!(rt; write(&mut sink, piece), answer);
    }
    assert_eq!(rt; sink.bytes(), b"abcd".as_slice());
    Ok(())
}

#[test]
fn the_faithful_ends_move_bytes(rt: HostRuntime) -> Result<(), Fail> {
    let mut source = FaithfulSource::new(bytes(rt.alloc(), b"abc")?);
    let mut room = *b"--";
    assert_eq!(rt; read(&mut source, &mut room), Ok(2));
    assert_eq!(rt; room, *b"ab");
    assert_eq!(rt; read(&mut source, &mut room), Ok(1));
    assert_eq!(rt; read(&mut source, &mut room), Ok(0));

    let mut held = *b"---";
    let mut sink = FaithfulSink::new(&mut held);
    assert_eq!(rt; sink.write(b"ab"), Ok(2));
    assert_eq!(rt; sink.write(b""), Ok(0));
    assert_eq!(rt; held, *b"ab-");
    Ok(())
}

#[test]
fn a_piece_source_gives_its_bytes_in_the_sizes_listed(rt: HostRuntime) -> Result<(), Fail> {
    let mut source = PieceSource::new(
        bytes(rt.alloc(), b"abcdefg")?,
        numbers(rt.alloc(), &[1, 9, 2])?,
    );
    let mut room = *b"---";
    for (answer, after) in [(1, *b"a--"), (3, *b"bcd"), (2, *b"efd")] {
        assert_eq!(rt; read(&mut source, &mut room), Ok(answer));
        assert_eq!(rt; room, after);
    }
    assert_eq!(rt; source.rest(), b"g".as_slice());
    Ok(())
}

#[test]
fn the_standard_ends_move_bytes(rt: HostRuntime) -> Result<(), Fail> {
    let mut source = StdSource::new(b"abc".as_slice());
    let mut room = *b"--";
    assert_eq!(rt; read(&mut source, &mut room), Ok(2));
    assert_eq!(rt; room, *b"ab");
    assert_eq!(rt; read(&mut source, &mut room), Ok(1));
    assert_eq!(rt; room, *b"cb");
    assert_eq!(rt; read(&mut source, &mut room), Ok(0));

    let mut held = Vec::new(rt.alloc());
    let mut sink = StdSink::new(&mut held);
    assert_eq!(rt; write(&mut sink, b"abc"), Ok(3));
    assert_eq!(rt; write(&mut sink, b""), Ok(0));
    assert_eq!(rt; held.as_slice(), b"abc".as_slice());
    Ok(())
}

// A reader and a writer that are interrupted at every other call, the first one among them. A write
// takes no more than `most` bytes.
#[derive(Drop)]
struct Interrupted {
    is_next: bool,
    most: usize,
}

impl Interrupted {
    fn new(most: usize) -> Interrupted {
        Interrupted {
            is_next: true,
            most,
        }
    }

    fn turn(&mut self, size: usize) -> io::Result<usize>
        ensures { IfOk result (λ n. n ≤ size) }
    {
        let is_now = self.is_next;
        self.is_next = !is_now;
        if is_now {
            return Err(io::Error::from(io::ErrorKind::Interrupted));
        }
        Ok(self.most.min(size))
    }
}

impl Read for Interrupted {
    fn read(&mut self, buf: &mut [u8]) -> io::Result<usize> {
        buf.fill(b'x');
        self.turn(buf.len())
    }
}

impl Write for Interrupted {
    fn write(&mut self, buf: &[u8]) -> io::Result<usize> {
        self.turn(buf.len())
    }

    fn flush(&mut self) -> io::Result<()> {
        Ok(())
    }
}

#[test]
fn an_interrupted_call_of_a_standard_end_failed(rt: HostRuntime) {
    let mut source = StdSource::new(Interrupted::new(1));
    let mut room = *b"--";
    assert_eq!(rt; read(&mut source, &mut room), Err(Failed));
    assert_eq!(rt; read(&mut source, &mut room), Ok(1));
    assert_eq!(rt; room, *b"xx");

    let mut sink = StdSink::new(Interrupted::new(1));
    assert_eq!(rt; write(&mut sink, b"ab"), Err(Failed));
    assert_eq!(rt; write(&mut sink, b"ab"), Ok(1));
}

#[test]
fn a_write_that_takes_no_byte_of_a_piece_failed(rt: HostRuntime) {
    let mut sink = StdSink::new(Interrupted::new(0));
    assert_eq!(rt; write(&mut sink, b""), Err(Failed));
    assert_eq!(rt; write(&mut sink, b""), Ok(0));
    assert_eq!(rt; write(&mut sink, b"ab"), Err(Failed));
    assert_eq!(rt; write(&mut sink, b"ab"), Err(Failed));
}
