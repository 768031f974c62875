//! Payloads cut and joined as on the air.
ghost use Rattle.std.specs.Prelude.{◌≡◌, ◌≤◌, None, OnOk, Some};
ghost use Rattle.segment_core.specs.Store.{IsNotBefore};

use apdu_core::Seg;
use fisb_time::{Moment, TimeForm};
use segment_core::laws::parts_are_few;
use segment_core::{Arrived, Joiner, Longest, Taken, split};
use std::alloc::AllocError;
use std::test::Fail;
use uplink_frame::StationId;

/// A segment of a text's file 0, from a station without a position.
fn segment<'a>(version: Moment, count: u16, number: u16, payload: &'a [u8]) -> Arrived<'a>
    ensures product { result.product ≡ 413 }
    ensures version { result.version ≡ version }
    ensures seg { result.seg ≡ Some (record { file = 0; count = count; number = number }) }
{
    Arrived {
        station: StationId {
            lat: 0,
            lon: 0,
            position_valid: false,
            site: 0,
        },
        product: 413,
        version,
        seg: Some(Seg {
            file: 0,
            count,
            number,
        }),
        payload,
    }
}

/// A joiner of texts that live a day.
fn joiner(rt: &HostRuntime) -> Joiner
    ensures clock { result.store.clock ≡ None }
    ensures mark { result.mark ≡ None }
{
    Joiner::new(
        rt.alloc(),
        Longest {
            regional: 3_600,
            conus: 3_600,
            text: 86_400,
        },
    )
}

/// An answer in words, with the bytes of what is whole.
fn is_whole(taken: &Taken, bytes: &[u8]) -> bool {
    match taken {
        Taken::Whole(whole) => whole.all() == bytes,
        Taken::Waits => false,
        Taken::Again => false,
        Taken::Stale => false,
    }
}

/// The name of an answer.
fn name(taken: &Taken) -> &'static str {
    match taken {
        Taken::Whole(_) => "whole",
        Taken::Waits => "waits",
        Taken::Again => "again",
        Taken::Stale => "stale",
    }
}

/// Whether a segment of a file of two is answered by this name.
fn is_answered(
    joiner: &mut Joiner,
    now: Moment,
    version: Moment,
    number: u16,
    byte: u8,
    wanted: &str,
) -> Result<bool, AllocError>
    requires number { 1 ≤ number }
    requires count { number ≤ 2 }
    requires clock { IsNotBefore joiner.old.store.clock now }
    ensures clock { OnOk result (joiner.new.store.clock ≡ Some now) }
    ensures mark { joiner.new.mark ≡ joiner.old.mark }
{
    let taken = joiner.take(now, &segment(version, 2, number, &[byte]))?;
    Ok(name(&taken) == wanted)
}

/// Whether the first segment of a file of two makes it whole, with the bytes of both.
fn makes_both_whole(joiner: &mut Joiner, now: Moment, version: Moment) -> Result<bool, AllocError>
    requires { IsNotBefore joiner.old.store.clock now }
    ensures clock { OnOk result (joiner.new.store.clock ≡ Some now) }
    ensures mark { joiner.new.mark ≡ joiner.old.mark }
{
    let taken = joiner.take(now, &segment(version, 2, 1, &[0xAA]))?;
    Ok(is_whole(&taken, &[0xAA, 0xBB]))
}

#[test]
fn two_segments_become_whole(rt: HostRuntime) -> Result<(), Fail> {
    let version = Moment::new(1_699_999_980).ok_or("in range")?;
    let now = Moment::new(1_700_000_000).ok_or("in range")?;
    let mut joiner = joiner(&rt);
    assert!(rt; is_answered(&mut joiner, now, version, 2, 0xBB, "waits")?);
    assert!(rt; is_answered(&mut joiner, now, version, 2, 0xCC, "again")?);
    assert!(rt; makes_both_whole(&mut joiner, now, version)?);
    assert!(rt; is_answered(&mut joiner, now, version, 1, 0xAA, "again")?);
    assert_eq!(rt; joiner.clock(), Some(now));
    Ok(())
}

#[test]
fn a_segment_is_stale_at_the_end_of_its_life(rt: HostRuntime) -> Result<(), Fail> {
    let version = Moment::new(1_699_999_980).ok_or("in range")?;
    let now = Moment::new(1_700_000_000).ok_or("in range")?;
    let end = Moment::new(1_700_086_380).ok_or("in range")?;
    let mut joiner = joiner(&rt);
    assert!(rt; is_answered(&mut joiner, now, version, 2, 0xBB, "waits")?);
    assert!(rt; makes_both_whole(&mut joiner, now, version)?);
    joiner.purge(now);
    assert!(rt; is_answered(&mut joiner, end, version, 1, 0xAA, "stale")?);
    Ok(())
}

#[test]
fn what_was_undone_is_whole_again(rt: HostRuntime) -> Result<(), Fail> {
    let version = Moment::new(1_699_999_980).ok_or("in range")?;
    let now = Moment::new(1_700_000_000).ok_or("in range")?;
    let later = Moment::new(1_700_000_001).ok_or("in range")?;
    let mut joiner = joiner(&rt);
    assert!(rt; is_answered(&mut joiner, now, version, 2, 0xBB, "waits")?);
    joiner.mark();
    assert!(rt; is_answered(&mut joiner, later, version, 1, 0xAA, "whole")?);
    joiner.undo();
    assert_eq!(rt; joiner.clock(), Some(now));
    joiner.mark();
    assert!(rt; makes_both_whole(&mut joiner, later, version)?);
    joiner.settle();
    assert!(rt; is_answered(&mut joiner, later, version, 1, 0xAA, "again")?);
    Ok(())
}

#[test]
fn a_payload_is_cut_and_joined(rt: HostRuntime) -> Result<(), Fail> {
    parts_are_few();
    let version = Moment::new(1_699_999_980).ok_or("in range")?;
    let short = [7; 418];
    assert_eq!(rt; split(413, TimeForm::Minute, version, 5, &short).count(), 1);
    let long = [7; 419];
    let pieces = split(413, TimeForm::Minute, version, 5, &long);
    assert_eq!(rt; pieces.count(), 2);
    let last = pieces.apdu(pieces.count());
    assert_eq!(rt; last.payload, [7, 7, 7, 7].as_slice());
    assert_eq!(rt;
        last.seg,
        Some(Seg {
            file: 5,
            count: 2,
            number: 2
        })
    );
    Ok(())
}

/// Takes the segments of a file of 64 but the first one, the last one first, and counts the
/// answers that it waits.
fn count_waiting(joiner: &mut Joiner, now: Moment, version: Moment) -> Result<u8, AllocError>
    requires { IsNotBefore joiner.old.store.clock now }
    ensures { OnOk result (joiner.new.store.clock ≡ Some now) }
{
    let mut waits = 0;
    joiner.take(now, &segment(version, 64, 64, &[64]))?;
    for index in 0..62 {
        let taken = joiner.take(now, &segment(version, 64, 63 - index, &[9]))?;
        if name(&taken) == "waits" && waits < 200 {
            waits += 1;
        }
    }
    Ok(waits)
}

/// Whether the first segment of the file makes these bytes whole.
fn makes_whole(
    joiner: &mut Joiner,
    now: Moment,
    version: Moment,
    bytes: &[u8],
) -> Result<bool, AllocError>
    requires { IsNotBefore joiner.old.store.clock now }
    ensures { OnOk result (joiner.new.store.clock ≡ Some now) }
{
    let taken = joiner.take(now, &segment(version, 64, 1, &[9]))?;
    Ok(is_whole(&taken, bytes))
}

#[test]
fn a_file_of_64_segments_becomes_whole(rt: HostRuntime) -> Result<(), Fail> {
    let version = Moment::new(1_699_999_980).ok_or("in range")?;
    let now = Moment::new(1_700_000_000).ok_or("in range")?;
    let mut joiner = joiner(&rt);
    assert_eq!(rt; count_waiting(&mut joiner, now, version)?, 62);
    let mut payload = [9; 64];
    payload[63] = 64;
    assert!(rt; makes_whole(&mut joiner, now, version, &payload)?);
    assert_eq!(rt;
        name(&joiner.take(now, &segment(version, 64, 64, &[9]))?),
        "again"
    );
    Ok(())
}
