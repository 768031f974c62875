//! A script of `link` that is cut after each of its bytes, and one that is read in one piece.

use fisb_app::{Reason, Status, run_link};
use fisb_wire::{Bytes, FaithfulSource, MemorySink, Numbers, PieceSource, Source};
use std::alloc::{AllocError, Global};
use std::test::Fail;

// Its lines end after 4, 42, 60, 78 and 94 bytes.
const SCRIPT: &[u8] = b"---\ntext 1700000000 1699999980 METAR KSEA\nturn 1700000001 0\n\
    hear 1700000002 0\nshow 1700000003\n";

const SENT: &[u8] = b"sent 0 1700000001 0 1 15\n";

const HEARD: &[u8] = b"sent 0 1700000001 0 1 15\nheard 1700000002 0 0 0 0 0 0 0 0\n";

const SHOWN: &[u8] = b"sent 0 1700000001 0 1 15\nheard 1700000002 0 0 0 0 0 0 0 0\n\
    picture 1700000003 1\ntext METAR KSEA 1699999980 METAR KSEA\n";

// What `link` answers and writes over a source.
fn link_over<S: Source>(alloc: Global, source: &mut S) -> Result<(Status, Vec<u8>), AllocError> {
    let none = Numbers::of(Vec::new(alloc));
    let mut sink = MemorySink::new(alloc, 1024, none)?;
    let status = run_link(alloc, source, &mut sink);
    Ok((status, Vec::from_slice(alloc, sink.bytes())?))
}

// The same over the first bytes of the script.
fn link_of_front(alloc: Global, size: usize) -> Result<(Status, Vec<u8>), AllocError> {
    let front = SCRIPT.split_at(size.min(SCRIPT.len())).0;
    let mut source = FaithfulSource::new(Bytes::of(Vec::from_slice(alloc, front)?));
    link_over(alloc, &mut source)
}

fn refusal(line: u64, reason: Reason) -> Status {
    Status::Refused { line, reason }
}

// What is to be answered and written, by how many bytes of the script there are: a line that is cut
// is read as it stands, and only a report may be cut and still be one.
fn answer(size: usize) -> (Status, &'static [u8]) {
    match size {
        0..=2 => (
            refusal(1, Reason::NoTable),
            b"refused 1 notable\n".as_slice(),
        ),
        3..=4 => (Status::Done, b"".as_slice()),
        5..=30 => (refusal(2, Reason::Syntax), b"refused 2 syntax\n".as_slice()),
        31..=37 => (
            refusal(2, Reason::FewWords),
            b"refused 2 words\n".as_slice(),
        ),
        38..=42 => (Status::Done, b"".as_slice()),
        43..=58 => (refusal(3, Reason::Syntax), b"refused 3 syntax\n".as_slice()),
        59..=60 => (Status::Done, SENT),
        61..=76 => (
            refusal(4, Reason::Syntax),
            b"sent 0 1700000001 0 1 15\nrefused 4 syntax\n".as_slice(),
        ),
        77..=78 => (Status::Done, HEARD),
        79..=92 => (
            refusal(5, Reason::Syntax),
            b"sent 0 1700000001 0 1 15\nheard 1700000002 0 0 0 0 0 0 0 0\n\
                refused 5 syntax\n"
                .as_slice(),
        ),
        _ => (Status::Done, SHOWN),
    }
}

#[test]
fn a_script_may_be_cut_after_each_byte(rt: HostRuntime) -> Result<(), Fail> {
    for size in 0..=SCRIPT.len() {
        let (status, output) = link_of_front(rt.alloc(), size)?;
        let wanted = answer(size);
        assert_eq!(rt; status, wanted.0);
        assert_eq!(rt; output.as_slice(), wanted.1);
    }
    Ok(())
}

#[test]
fn a_script_may_be_read_in_one_piece(rt: HostRuntime) -> Result<(), Fail> {
    let input = Bytes::of(Vec::from_slice(rt.alloc(), SCRIPT)?);
    let mut source = PieceSource::new(input, Numbers::of(Vec::new(rt.alloc())));
    let (status, output) = link_over(rt.alloc(), &mut source)?;
    assert_eq!(rt; status, Status::Done);
    assert_eq!(rt; output.as_slice(), SHOWN);
    Ok(())
}
