//! Frames of pseudo-random bytes: a receiver answers each, and shows what it showed.

use crate::tests::{
    METAR_KSEA, NOW, SHOWN, Step, first_wrong, has_reports, moment_of, new_receiver,
};
use receiver_core::{HearFault, Receiver};
use std::test::Fail;

/// Puts pseudo-random bytes in place of these, and answers the state for those after them.
fn fill_at_random(bytes: &mut [u8], state: u64) -> u64 {
    let mut state = state;
    for place in 0..bytes.len() {
        state = state
            .wrapping_mul(6_364_136_223_846_793_005)
            .wrapping_add(1_442_695_040_888_963_407);
        bytes[place] = ((state >> 33) % 256) as u8;
    }
    state
}

/// Whether a frame of these bytes is heard or lost.
fn is_heard_or_lost(receiver: &mut Receiver, air: &[u8; 552]) -> Result<bool, Fail> {
    let moment = moment_of(NOW)?;
    match receiver.hear(moment, air) {
        Ok(_) => Ok(true),
        Err(HearFault::Lost { .. }) => Ok(true),
        Err(_) => Ok(false),
    }
}

#[test]
fn two_hundred_frames_at_random_are_heard_or_lost(rt: HostRuntime) -> Result<(), Fail> {
    let alloc = rt.alloc();
    let mut receiver = new_receiver(alloc)?;
    let steps = [Step::Hear(NOW, METAR_KSEA)];
    assert_eq!(rt; first_wrong(alloc, &mut receiver, &steps)?, None);
    let mut air = [0; 552];
    let mut state = 7;
    for _ in 0..200 {
        state = fill_at_random(&mut air, state);
        assert!(rt; is_heard_or_lost(&mut receiver, &air)?);
        assert!(rt; has_reports(&receiver, alloc, NOW, &[("METAR KSEA", SHOWN)])?);
    }
    Ok(())
}
