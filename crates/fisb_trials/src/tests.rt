//! Runs of a whole command over ends that fail or give few bytes, and each command's own call.
//! Scripts over ends that do not fail are cases of the file `stdin`.
ghost use Rattle.std.specs.Prelude.{◌<◌};
ghost use Rattle.receiver_core.specs.StandsFor.{StandsFor};

use fisb_app::{Ear, Reason, Status, run_gdl, run_ground, run_link, run_link_over, run_receive};
use fisb_time::Moment;
use fisb_wire::{Bytes, FaithfulSource, MemorySink, MemorySource, Numbers, PieceSource};
use gdl90_core::{Deframer, Framed};
use life_table::LifeTable;
use picture_core::Entries;
use receiver_core::{HearFault, Heard, Receiver, ShowFault};
use std::alloc::{AllocError, Global};
use std::test::Fail;

const SCRIPT: &[u8] = b"---\ntext 1700000000 1699999980 METAR KSEA\nturn 1700000001 0\n\
    hear 1700000002 0\nshow 1700000003\n";

const SENT: &[u8] = b"sent 0 1700000001 0 1 15\n";

const HEARD: &[u8] = b"sent 0 1700000001 0 1 15\nheard 1700000002 0 0 0 0 0 0 0 0\n";

const SHOWN: &[u8] = b"sent 0 1700000001 0 1 15\nheard 1700000002 0 0 0 0 0 0 0 0\n\
    picture 1700000003 1\ntext METAR KSEA 1699999980 METAR KSEA\n";

// The first lines of the script.
const GIVEN: &[u8] = b"---\ntext 1700000000 1699999980 METAR KSEA\nturn 1700000001 0\n";

const RECEIVED: &[u8] = b"heard 1700000002 0 0 0 0 0 0 0 0\npicture 1700000003 1\n\
    text METAR KSEA 1699999980 METAR KSEA\n";

// Message 7, an unknown time, a header, and an information frame of a header at 22:13 and the
// METAR.
const MESSAGE_FRONT: [u8; 27] = [
    0x07, 0xff, 0xff, 0xff, 0x00, 0x00, 0x00, 0x00, 0x00, 0x00, 0xa0, 0x00, 0x06, 0x80, 0x06, 0x74,
    0x58, 0xd0, 0x34, 0x55, 0x01, 0x4a, 0x02, 0xd3, 0x14, 0x10, 0x00,
];

fn script(alloc: Global) -> Result<Bytes, AllocError> {
    Ok(Bytes::of(Vec::from_slice(alloc, SCRIPT)?))
}

fn numbers(alloc: Global, items: &[u32]) -> Result<Numbers, AllocError> {
    Ok(Numbers::of(Vec::from_slice(alloc, items)?))
}

// What `link` answers and writes where the read of this number fails, of reads of 16 bytes.
fn without_read(alloc: Global, number: u32) -> Result<(Status, Vec<u8>), AllocError> {
    let mut source = MemorySource::new(script(alloc)?, numbers(alloc, &[number])?, 16);
    let mut sink = MemorySink::new(alloc, 1024, numbers(alloc, &[])?)?;
    let status = run_link(alloc, &mut source, &mut sink);
    Ok((status, Vec::from_slice(alloc, sink.bytes())?))
}

// The same where the write of this number fails.
fn without_write(alloc: Global, number: u32) -> Result<(Status, Vec<u8>), AllocError> {
    let mut source = FaithfulSource::new(script(alloc)?);
    let mut sink = MemorySink::new(alloc, 1024, numbers(alloc, &[number])?)?;
    let status = run_link(alloc, &mut source, &mut sink);
    Ok((status, Vec::from_slice(alloc, sink.bytes())?))
}

// The same over reads of so many bytes.
fn in_pieces(alloc: Global, size: u32) -> Result<(Status, Vec<u8>), AllocError>
    requires { 0 < size }
{
    let sizes = Numbers::of(vec![in alloc; size; 100]?);
    let mut source = PieceSource::new(script(alloc)?, sizes);
    let mut sink = MemorySink::new(alloc, 1024, numbers(alloc, &[])?)?;
    let status = run_link(alloc, &mut source, &mut sink);
    Ok((status, Vec::from_slice(alloc, sink.bytes())?))
}

#[test]
fn the_lines_before_a_failed_read_are_acted_on(rt: HostRuntime) -> Result<(), Fail> {
    let rows = [
        b"".as_slice(),
        b"".as_slice(),
        b"".as_slice(),
        b"".as_slice(),
        SENT,
        HEARD,
        SHOWN,
    ];
    for (number, output) in rows.iter().enumerate() {
        let ran = without_read(rt.alloc(), number as u32)?;
        assert_eq!(rt; ran.0, Status::ReadFault);
        assert_eq!(rt; ran.1.as_slice(), *output);
    }
    assert_eq!(rt; without_read(rt.alloc(), 7)?.0, Status::Done);
    Ok(())
}

#[test]
fn a_failed_write_ends_the_run_after_what_was_written(rt: HostRuntime) -> Result<(), Fail> {
    for (number, output) in [b"".as_slice(), SENT, HEARD].iter().enumerate() {
        let ran = without_write(rt.alloc(), number as u32)?;
        assert_eq!(rt; ran.0, Status::WriteFault);
        assert_eq!(rt; ran.1.as_slice(), *output);
    }
    assert_eq!(rt; without_write(rt.alloc(), 3)?.0, Status::Done);
    Ok(())
}

#[test]
fn the_sizes_of_the_reads_change_nothing(rt: HostRuntime) -> Result<(), Fail> {
    for size in [1, 7, 1000] {
        let ran = in_pieces(rt.alloc(), size)?;
        assert_eq!(rt; ran.0, Status::Done);
        assert_eq!(rt; ran.1.as_slice(), SHOWN);
    }
    Ok(())
}

#[test]
fn each_command_has_a_call_of_its_own(rt: HostRuntime) -> Result<(), Fail> {
    let alloc = rt.alloc();
    let mut source = FaithfulSource::new(script(alloc)?);
    let mut sink = MemorySink::new(alloc, 4096, numbers(alloc, &[])?)?;
    let not_here = Status::Refused {
        line: 4,
        reason: Reason::NotHere,
    };
    assert_eq!(rt; run_ground(alloc, &mut source, &mut sink), not_here);
    assert_eq!(rt; run_link(alloc, &mut source, &mut sink).code(), 3);
    Ok(())
}

// A script with one frame: that of the METAR, as a ground writes it.
fn frame_script(alloc: Global, show: &[u8]) -> Result<Vec<u8>, AllocError> {
    let given = Vec::from_slice(alloc, GIVEN)?;
    let mut source = FaithfulSource::new(Bytes::of(given));
    let mut sink = MemorySink::new(alloc, 4096, numbers(alloc, &[])?)?;
    let status = run_ground(alloc, &mut source, &mut sink);
    let mut script = Vec::from_slice(alloc, b"---\nrx 1700000002 ")?;
    if status == Status::Done {
        let digits = sink.bytes().split(|byte| *byte == b' ').last();
        script.extend_from_slice(digits.unwrap_or(b""))?;
    }
    script.extend_from_slice(show)?;
    Ok(script)
}

#[test]
fn a_frame_of_a_ground_is_received(rt: HostRuntime) -> Result<(), Fail> {
    let script = frame_script(rt.alloc(), b"show 1700000003\n")?;
    let mut source = FaithfulSource::new(Bytes::of(script));
    let mut sink = MemorySink::new(rt.alloc(), 4096, numbers(rt.alloc(), &[])?)?;
    assert_eq!(rt;
        run_receive(rt.alloc(), &mut source, &mut sink),
        Status::Done
    );
    assert_eq!(rt; sink.bytes(), RECEIVED);
    Ok(())
}

// Whether the bytes are this message alone, framed.
fn is_message(bytes: &[u8], message: &[u8]) -> bool {
    let mut deframer = Deframer::new();
    let mut told = 0u32;
    let mut is_same = false;
    for byte in bytes {
        if let Some(framed) = deframer.feed(*byte) {
            told = told.saturating_add(1);
            is_same = framed == Framed::Message(message);
        }
    }
    told == 1 && is_same
}

#[test]
fn a_frame_of_a_ground_is_handed_on_to_displays(rt: HostRuntime) -> Result<(), Fail> {
    let mut source = FaithfulSource::new(Bytes::of(frame_script(rt.alloc(), b"")?));
    let mut sink = MemorySink::new(rt.alloc(), 4096, numbers(rt.alloc(), &[])?)?;
    assert_eq!(rt; run_gdl(rt.alloc(), &mut source, &mut sink), Status::Done);
    let mut message = [0; 436];
    message[..27].copy_from_slice(&MESSAGE_FRONT);
    assert!(rt; is_message(sink.bytes(), &message));
    Ok(())
}

#[test]
fn a_frame_without_valid_application_data_is_handed_on_too(rt: HostRuntime) -> Result<(), Fail> {
    let mut script = Vec::from_slice(rt.alloc(), b"---\nrx 1700000000 ")?;
    script.extend_from_slice(&[b'0'; 1104])?;
    let mut source = FaithfulSource::new(Bytes::of(script));
    let mut sink = MemorySink::new(rt.alloc(), 4096, numbers(rt.alloc(), &[])?)?;
    assert_eq!(rt; run_gdl(rt.alloc(), &mut source, &mut sink), Status::Done);
    let mut message = [0; 436];
    message[..4].copy_from_slice(&[0x07, 0xff, 0xff, 0xff]);
    assert!(rt; is_message(sink.bytes(), &message));
    Ok(())
}

/// A receiver that finds no memory to hear a frame.
#[derive(Drop)]
pub(crate) struct Mute {
    receiver: Receiver,
}

impl Ear for Mute {
    ghost stands = { λ table past mute. StandsFor table mute.receiver past };

    fn new(alloc: Global, table: LifeTable) -> Mute {
        Mute {
            receiver: Receiver::new(alloc, table),
        }
    }

    fn hear(&mut self, moment: Moment, air: &[u8; 552]) -> Result<Heard, HearFault> {
        Err(HearFault::NoMemory)
    }

    fn picture(&self, alloc: Global, moment: Moment) -> Result<Entries, ShowFault> {
        self.receiver.picture(alloc, moment)
    }
}

#[test]
fn a_frame_that_is_heard_goes_to_the_receiver(rt: HostRuntime) -> Result<(), Fail> {
    let mut source = FaithfulSource::new(script(rt.alloc())?);
    let mut sink = MemorySink::new(rt.alloc(), 1024, numbers(rt.alloc(), &[])?)?;
    let status = run_link_over::<FaithfulSource, MemorySink, Mute>(
        rt.alloc(),
        &mut source,
        &mut sink,
    );
    assert_eq!(rt; status, Status::NoMemory);
    assert_eq!(rt; sink.bytes(), SENT);
    Ok(())
}

/// A receiver that finds no memory where the first byte of a frame is not 0.
#[derive(Drop)]
struct Deaf {
    receiver: Receiver,
}

impl Ear for Deaf {
    ghost stands = { λ table past deaf. StandsFor table deaf.receiver past };

    fn new(alloc: Global, table: LifeTable) -> Deaf {
        Deaf {
            receiver: Receiver::new(alloc, table),
        }
    }

    fn hear(&mut self, moment: Moment, air: &[u8; 552]) -> Result<Heard, HearFault> {
        if air[0] != 0 {
            return Err(HearFault::NoMemory);
        }
        self.receiver.hear(moment, air)
    }

    fn picture(&self, alloc: Global, moment: Moment) -> Result<Entries, ShowFault> {
        self.receiver.picture(alloc, moment)
    }
}

// The script with a burst of 60 wrong bytes, of which the first is the first of the frame.
const BURST: &[u8] = b"---\ntext 1700000000 1699999980 METAR KSEA\nturn 1700000001 0\n\
    hear 1700000002 0 \
    0=5A 1=5A 2=5A 3=5A 4=5A 5=5A 6=5A 7=5A 8=5A 9=5A 10=5A 11=5A 12=5A 13=5A 14=5A 15=5A \
    16=5A 17=5A 18=5A 19=5A 20=5A 21=5A 22=5A 23=5A 24=5A 25=5A 26=5A 27=5A 28=5A 29=5A \
    30=5A 31=5A 32=5A 33=5A 34=5A 35=5A 36=5A 37=5A 38=5A 39=5A 40=5A 41=5A 42=5A 43=5A \
    44=5A 45=5A 46=5A 47=5A 48=5A 49=5A 50=5A 51=5A 52=5A 53=5A 54=5A 55=5A 56=5A 57=5A \
    58=5A 59=5A\n\
    show 1700000003\n";

// What `link` with the deaf receiver writes of a script.
fn deaf_run(alloc: Global, script: &[u8]) -> Result<(Status, Vec<u8>), AllocError> {
    let mut source = FaithfulSource::new(Bytes::of(Vec::from_slice(alloc, script)?));
    let mut sink = MemorySink::new(alloc, 1024, numbers(alloc, &[])?)?;
    let status = run_link_over::<FaithfulSource, MemorySink, Deaf>(alloc, &mut source, &mut sink);
    Ok((status, Vec::from_slice(alloc, sink.bytes())?))
}

#[test]
fn a_frame_goes_to_the_receiver_as_it_was_sent(rt: HostRuntime) -> Result<(), Fail> {
    let ran = deaf_run(rt.alloc(), SCRIPT)?;
    assert_eq!(rt; ran.0, Status::Done);
    assert_eq!(rt; ran.1.as_slice(), SHOWN);
    Ok(())
}

#[test]
fn a_frame_goes_to_the_receiver_with_its_wrong_bytes(rt: HostRuntime) -> Result<(), Fail> {
    let ran = deaf_run(rt.alloc(), BURST)?;
    assert_eq!(rt; ran.0, Status::NoMemory);
    assert_eq!(rt; ran.1.as_slice(), SENT);
    Ok(())
}
