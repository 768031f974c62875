//! Texts of what was heard, of what is shown, and of a refusal.
use fisb_time::Moment;
use life_table::LifeTable;
use receiver_core::{Heard, Receiver};
use refusal_core::{Reason, print_refused};
use script_core::{print_heard, print_picture};
use std::alloc::Global;
use std::test::Fail;

// A header of slot 0 and site 0 without a position, an information frame with METAR KSEA of 22:13,
// and one of type 5.
const FRONT: [u8; 27] = [
    0x00, 0x00, 0x00, 0x00, 0x00, 0x00, 0xa0, 0x00, 0x06, 0x80, 0x06, 0x74, 0x58, 0xd0, 0x34, 0x55,
    0x01, 0x4a, 0x02, 0xd3, 0x14, 0x10, 0x00, 0x01, 0x05, 0xab, 0xcd,
];

fn payload() -> [u8; 432] {
    let mut payload = [0; 432];
    for i in 0..27 {
        payload[i] = FRONT[i];
    }
    payload
}

fn moment_of(seconds: u64) -> Result<Moment, Fail> {
    Ok(Moment::new(seconds).ok_or("a moment")?)
}

fn hear_once(receiver: &mut Receiver) -> Result<Heard, Fail> {
    Ok(receiver.hear_payload(moment_of(1_700_000_002)?, &payload())?)
}

fn is_printed_as_heard(alloc: Global, heard: &Heard, text: &[u8]) -> Result<bool, Fail> {
    let printed = print_heard(alloc, moment_of(1_700_000_002)?, heard)?;
    Ok(printed.all() == text)
}

fn is_printed_as_shown(alloc: Global, receiver: &Receiver, text: &[u8]) -> Result<bool, Fail> {
    let moment = moment_of(1_700_000_003)?;
    let entries = receiver.picture(alloc, moment)?;
    let printed = print_picture(alloc, moment, &entries)?;
    Ok(printed.all() == text)
}

fn is_printed_as_refused(
    alloc: Global,
    line: u64,
    reason: &Reason,
    text: &[u8],
) -> Result<bool, Fail> {
    let printed = print_refused(alloc, line, reason)?;
    Ok(printed.all() == text)
}

#[test]
fn what_was_heard_and_is_shown_is_printed(rt: HostRuntime) -> Result<(), Fail> {
    let alloc = rt.alloc();
    let mut receiver = Receiver::new(alloc, LifeTable::default_table(alloc)?);
    assert!(rt; is_printed_as_shown(alloc, &receiver, b"picture 1700000003 0\n")?);
    let heard = hear_once(&mut receiver)?;
    let text = b"heard 1700000002 0 0 0 0 0 0 0 0\nunread kind 5 0 2\n".as_slice();
    assert!(rt; is_printed_as_heard(alloc, &heard, text)?);
    let text = b"picture 1700000003 1\ntext METAR KSEA 1699999980 METAR KSEA\n".as_slice();
    assert!(rt; is_printed_as_shown(alloc, &receiver, text)?);
    Ok(())
}

#[test]
fn a_refusal_is_printed(rt: HostRuntime) -> Result<(), Fail> {
    let alloc = rt.alloc();
    let kept = moment_of(1_700_000_001)?;
    assert!(rt; is_printed_as_refused(alloc, 7, &Reason::Syntax, b"refused 7 syntax\n")?);
    let clock = Reason::Clock { kept };
    assert!(rt; is_printed_as_refused(alloc, 8, &clock, b"refused 8 clock 1700000001\n")?);
    Ok(())
}
