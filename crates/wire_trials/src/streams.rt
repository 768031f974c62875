//! Streams as they are on the wire, and the ends of the lengths.
ghost use Rattle.std.specs.Prelude.{◌<◌, ◌≤◌, length};

use arrayvec::ArrayVec;
use gdl90_core::laws::{
    answers_in_order, messages_read_back, one_reading, one_remainder, pieces_go_on,
};
use gdl90_core::{Damage, Deframer, Framed, fcs, frame_message, uplink_message};

/// Whether a new deframer that is fed this stream answers these, each at the byte of its place, and
/// nothing else.
fn tells(stream: &[u8], answers: &[(usize, Framed<'_>)]) -> bool {
    let mut deframer = Deframer::new();
    for (place, byte) in stream.iter().enumerate() {
        let answer = deframer.feed(*byte);
        let due = answers.iter().find(|due| due.0 == place).map(|due| due.1);
        if answer != due {
            return false;
        }
    }
    true
}

/// Whether the message is framed so, and reads back.
fn is_framed_as(message: &[u8], expected: &[u8]) -> bool
    requires not_empty { 0 < length message.now }
    requires fits { length message.now ≤ 1022 }
    requires framed { 0 < length expected.now }
{
    let mut out = ArrayVec::new();
    out.push(0xaa);
    frame_message(message, &mut out);
    out.as_slice() == expected && tells(expected, &[(expected.len() - 1, Framed::Message(message))])
}

#[test]
fn the_heartbeat_of_the_standard(rt: HostRuntime) {
    one_remainder();
    pieces_go_on();
    answers_in_order();
    one_reading();
    messages_read_back();
    let message = [0x00, 0x81, 0x41, 0xdb, 0xd0, 0x08, 0x02];
    let stream = [
        0x7e, 0x00, 0x81, 0x41, 0xdb, 0xd0, 0x08, 0x02, 0xb3, 0x8b, 0x7e,
    ];
    assert_eq!(rt; fcs(&message), 0x8bb3);
    assert!(rt; is_framed_as(&message, &stream));
}

#[test]
fn a_heartbeat_with_a_wrong_bit(rt: HostRuntime) {
    let stream = [
        0x7e, 0x00, 0x81, 0x41, 0xdb, 0xd0, 0x08, 0x02, 0xb3, 0x8c, 0x7e,
    ];
    assert!(rt; tells(&stream, &[(10, Framed::Damaged(Damage::BadFcs))]));
}

#[test]
fn a_flag_and_an_escape_in_message_and_check(rt: HostRuntime) {
    let stream = [
        0x7e, 0x00, 0x7d, 0x5e, 0x7d, 0x5d, 0x7d, 0x5d, 0x7d, 0x5e, 0x7e,
    ];
    assert!(rt; is_framed_as(&[0x00, 0x7e, 0x7d], &stream));
}

#[test]
fn empty_and_short_pieces(rt: HostRuntime) {
    assert!(rt; tells(&[0x7e, 0x7e], &[]));
    assert!(rt; tells(&[0x01, 0x7d, 0x7e], &[]));
    assert!(rt; tells(&[0x7e, 0x01, 0x7e], &[(2, Framed::Damaged(Damage::Short))]));
}

#[test]
fn an_escape_at_the_end_of_a_piece(rt: HostRuntime) {
    let bad = Framed::Damaged(Damage::BadEscape);
    assert!(rt; tells(&[0x7e, 0x00, 0x7d, 0x7e], &[(3, bad)]));
    // What follows the flag is no second half of the escape.
    assert!(rt;
        tells(
            &[0x7e, 0x7d, 0x7e, 0x5e, 0x7e],
            &[(2, bad), (4, Framed::Damaged(Damage::Short))]
        )
    );
    assert!(rt; tells(&[0x7e, 0x7d, 0x7d, 0x5d, 0x7e], &[(4, bad)]));
}

#[test]
fn an_escape_between_two_messages(rt: HostRuntime) {
    let message = Framed::Message(&[0x00, 0x7e, 0x7d]);
    let stream = [
        0x7e, 0x00, 0x7d, 0x5e, 0x7d, 0x5d, 0x7d, 0x5d, 0x7d, 0x5e, 0x7e, 0x7d, 0x7e, 0x00, 0x7d,
        0x5e, 0x7d, 0x5d, 0x7d, 0x5d, 0x7d, 0x5e, 0x7e,
    ];
    let bad = Framed::Damaged(Damage::BadEscape);
    assert!(rt; tells(&stream, &[(10, message), (12, bad), (22, message)]));
}

#[test]
fn rubbish_between_two_messages(rt: HostRuntime) {
    let message = Framed::Message(&[0x00, 0x7e, 0x7d]);
    let stream = [
        0x7e, 0x00, 0x7d, 0x5e, 0x7d, 0x5d, 0x7d, 0x5d, 0x7d, 0x5e, 0x7e, 0x01, 0x02, 0x03, 0x7e,
        0x00, 0x7d, 0x5e, 0x7d, 0x5d, 0x7d, 0x5d, 0x7d, 0x5e, 0x7e,
    ];
    let rubbish = Framed::Damaged(Damage::BadFcs);
    assert!(rt; tells(&stream, &[(10, message), (14, rubbish), (24, message)]));
}

#[test]
fn the_longest_message_and_a_byte_more(rt: HostRuntime) {
    // The remainder of zeros is 0, so zeros of any number are a message of zeros and its check.
    let message = [0; 1022];
    let mut stream = [0; 1027];
    stream[0] = 0x7e;
    stream[1025] = 0x7e;
    assert!(rt; is_framed_as(&message, &stream[..1026]));
    stream[1025] = 0;
    stream[1026] = 0x7e;
    assert!(rt; tells(&stream, &[(1026, Framed::Damaged(Damage::TooLong))]));
}

#[test]
fn a_long_piece_with_a_bad_escape(rt: HostRuntime) {
    let mut stream = [0; 1028];
    stream[0] = 0x7e;
    stream[1026] = 0x7d;
    stream[1027] = 0x7e;
    assert!(rt; tells(&stream, &[(1027, Framed::Damaged(Damage::BadEscape))]));
}

#[test]
fn the_longest_message_of_flags(rt: HostRuntime) {
    let mut out = ArrayVec::new();
    frame_message(&[0x7e; 1022], &mut out);
    let sent = out.as_slice();
    assert!(rt; sent.len() >= 2048);
    assert!(rt; tells(sent, &[(sent.len() - 1, Framed::Message(&[0x7e; 1022]))]));
}

#[test]
fn an_uplink_payload(rt: HostRuntime) {
    let mut payload = [0; 432];
    payload[0] = 0x11;
    payload[431] = 0x22;
    let message = uplink_message(0x0012_3456, &payload);
    assert!(rt; message[..5] == [0x07, 0x56, 0x34, 0x12, 0x11]);
    assert_eq!(rt; message[435], 0x22);
}

#[test]
fn bytes_at_random(rt: HostRuntime) {
    let mut deframer = Deframer::new();
    let mut state = 7_u64;
    let mut told = 0_u32;
    for _ in 0..4096 {
        state = state
            .wrapping_mul(6_364_136_223_846_793_005)
            .wrapping_add(1_442_695_040_888_963_407);
        let byte = ((state >> 33) % 256) as u8;
        if deframer.feed(byte).is_some() {
            told = told.saturating_add(1);
        }
    }
    assert!(rt; told > 0);
}
