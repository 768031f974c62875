ghost use Rattle.std.specs.Prelude.{◌≡◌, ◌<◌, ◌^◌, [], ◌∷◌, length, map, IfOk, All};
ghost use Rattle.uplink_frame.specs.UplinkFrame.{FitsHeader, information_frames, payload_of};

use std::alloc::{AllocError, Global};
use std::process::Abort;
use std::test::Fail;
use uplink_frame::{
    AppData, InfoFrame, NoRoom, StationId, UplinkHeader, frames, read_header, write_header,
};

// A header with every flag set, of TIS-B site 3.
fn header(lat: u32, lon: u32, slot: u8) -> UplinkHeader
    requires lat { lat < 2 ^ 23 }
    requires lon { lon < 2 ^ 24 }
    requires slot { slot < 32 }
    ensures { FitsHeader result }
{
    UplinkHeader {
        lat,
        lon,
        position_valid: true,
        utc: true,
        app_valid: true,
        slot,
        site: 3,
    }
}

// A payload of zeros with these application data at their front.
fn with_data(data: &[u8]) -> [u8; 432] {
    let mut payload = [0; 432];
    for i in 0..data.len() {
        if i < 424 {
            payload[8 + i] = data[i];
        }
    }
    payload
}

// What each information frame of a payload is, as its type and the length of its body.
fn outlines(alloc: Global, payload: &[u8; 432]) -> Result<Vec<(u8, usize)>, AllocError>
    ensures { IfOk result
        (λ found. found.items
        ≡ map (λ f. (f.kind, length f.body)) (information_frames payload.now)) }
{
    let mut found = Vec::new(alloc);
    for frame in frames(payload) {
        found.push((frame.kind, frame.body.len()))?;
    }
    Ok(found)
}

// The payload of a header and of one information frame.
fn payload_with(header: &UplinkHeader, kind: u8, body: &[u8]) -> [u8; 432]
    requires header { FitsHeader header.now }
    requires kind { 0 < kind × (kind < 16) }
    requires body { length body.now < 400 }
    ensures { result ≡ payload_of header.now (record { kind = kind; body = body.now } ∷ []) }
{
    let mut data = AppData::new();
    let mut payload = [0xFF; 432];
    write_header(header, &mut payload);
    if data.push(kind, body).is_err() {
        unreachable!();
    }
    data.finish(&mut payload);
    payload
}

#[test]
fn a_header_is_written_bit_by_bit(rt: HostRuntime) {
    let mut payload = [0xEE; 432];
    write_header(&header(0, 0, 5), &mut payload);
    assert!(rt; payload[..8] == [0x00, 0x00, 0x00, 0x00, 0x00, 0x01, 0xA5, 0x30]);
    assert!(rt; payload[8..] == [0xEE; 424]);
    assert_eq!(rt; read_header(&payload), header(0, 0, 5));
    write_header(&header(5, 9, 0), &mut payload);
    assert!(rt; payload[..8] == [0x00, 0x00, 0x0A, 0x00, 0x00, 0x13, 0xA0, 0x30]);
    assert_eq!(rt; read_header(&payload), header(5, 9, 0));
}

#[test]
fn the_greatest_fields_and_no_flag(rt: HostRuntime) {
    let wide = UplinkHeader {
        lat: 0x7F_FFFF,
        lon: 0xFF_FFFF,
        position_valid: false,
        utc: false,
        app_valid: false,
        slot: 31,
        site: 15,
    };
    let mut payload = [0; 432];
    write_header(&wide, &mut payload);
    assert!(rt; payload[..8] == [0xFF, 0xFF, 0xFF, 0xFF, 0xFF, 0xFE, 0x1F, 0xF0]);
    assert_eq!(rt; read_header(&payload), wide);
    let station = StationId {
        lat: 0x7F_FFFF,
        lon: 0xFF_FFFF,
        position_valid: false,
        site: 15,
    };
    assert_eq!(rt; wide.station(), station);
    assert!(rt; header(5, 9, 0).station() < station);
}

#[test]
fn reserved_bits_of_a_header_are_not_looked_at(rt: HostRuntime) {
    let mut payload = [0; 432];
    payload[6] = 0x40;
    payload[7] = 0x0F;
    let none = UplinkHeader {
        lat: 0,
        lon: 0,
        position_valid: false,
        utc: false,
        app_valid: false,
        slot: 0,
        site: 0,
    };
    assert_eq!(rt; read_header(&payload), none);
}

#[test]
fn two_frames_and_zeros(rt: HostRuntime) -> Result<(), Fail> {
    let payload = with_data(&[
        0x02, 0x02, 0xAA, 0xBB, 0xCC, 0xDD, 0x02, 0x00, 0x00, 0x20, 0x58, 0xD0,
    ]);
    let mut walk = frames(&payload);
    let first = walk.next().ok_or("no first frame")?;
    assert_eq!(rt; first.kind, 2);
    assert_eq!(rt; first.body, [0xAA, 0xBB, 0xCC, 0xDD].as_slice());
    let second = walk.next().ok_or("no second frame")?;
    assert_eq!(rt; second.kind, 0);
    assert_eq!(rt; second.body, [0x00, 0x20, 0x58, 0xD0].as_slice());
    assert!(rt; walk.next().is_none());
    assert!(rt; walk.next().is_none());
    Ok(())
}

#[test]
fn reserved_bits_of_a_frame_are_not_looked_at(rt: HostRuntime) -> Result<(), Fail> {
    let payload = with_data(&[0x00, 0xF2, 0xAA, 0x00, 0x70, 0x00, 0x82, 0xBB]);
    let mut walk = frames(&payload);
    let first = walk.next().ok_or("no frame")?;
    assert_eq!(rt; first.kind, 2);
    assert_eq!(rt; first.body, [0xAA].as_slice());
    assert!(rt; walk.next().is_none(), "length 0 and type 0 end the list");
    Ok(())
}

#[test]
fn a_frame_without_bytes_of_another_type_has_an_empty_body(rt: HostRuntime) -> Result<(), Fail> {
    let payload = with_data(&[0x00, 0x05, 0x00, 0x82, 0xAA]);
    let found = outlines(rt.alloc(), &payload)?;
    assert_eq!(rt; found.as_slice(), [(5, 0), (2, 1)].as_slice());
    Ok(())
}

#[test]
fn nothing_is_read_behind_length_and_type_0(rt: HostRuntime) -> Result<(), Fail> {
    let payload = with_data(&[0x00, 0x82, 0xAA, 0x00, 0x00, 0x00, 0x82, 0xBB]);
    let found = outlines(rt.alloc(), &payload)?;
    assert_eq!(rt; found.as_slice(), [(2, 1)].as_slice());
    let none = outlines(rt.alloc(), &[0; 432])?;
    assert_eq!(rt; none.len(), 0);
    Ok(())
}

#[test]
fn a_single_byte_that_is_left_ends_the_list(rt: HostRuntime) -> Result<(), Fail> {
    let mut payload = [0xFF; 432];
    payload[8] = 0xD2;
    payload[9] = 0x81;
    let found = outlines(rt.alloc(), &payload)?;
    assert_eq!(rt; found.as_slice(), [(1, 421)].as_slice());
    Ok(())
}

#[test]
fn a_length_above_what_is_left_ends_the_list(rt: HostRuntime) -> Result<(), Fail> {
    let mut payload = [0xFF; 432];
    payload[8] = 0xD3;
    payload[9] = 0x01;
    let whole = outlines(rt.alloc(), &payload)?;
    assert_eq!(rt; whole.as_slice(), [(1, 422)].as_slice());
    payload[9] = 0x81;
    let cut = outlines(rt.alloc(), &payload)?;
    assert_eq!(rt; cut.len(), 0);
    Ok(())
}

#[test]
fn an_apdu_with_nine_bytes_begins_with_06_80(rt: HostRuntime) -> Result<(), Fail> {
    // hours and minutes of a text at 12:34, and a payload of nine bytes
    let body = [0x06, 0x74, 0x32, 0x20, 1, 2, 3, 4, 5, 6, 7, 8, 9];
    let mut data = AppData::new();
    assert_eq!(rt; data.used_bytes(), 0);
    assert_eq!(rt; data.push(0, &body), Ok(()));
    assert_eq!(rt; data.used_bytes(), 15);
    let mut payload = [0xFF; 432];
    data.finish(&mut payload);
    assert!(rt; payload[..8] == [0xFF; 8]);
    assert!(rt; payload[8..14] == [0x06, 0x80, 0x06, 0x74, 0x32, 0x20]);
    assert!(rt; payload[14..23] == [1, 2, 3, 4, 5, 6, 7, 8, 9]);
    assert!(rt; payload[23..] == [0; 409]);
    let frame = frames(&payload).next().ok_or("no frame")?;
    assert_eq!(rt; frame.kind, 0);
    assert_eq!(rt; frame.body, body.as_slice());
    Ok(())
}

#[test]
fn a_length_has_nine_bits(rt: HostRuntime) -> Result<(), Fail> {
    let body = [0x5A; 300];
    let payload = payload_with(&header(0, 0, 5), 5, &body);
    assert!(rt; payload[8..11] == [0x96, 0x05, 0x5A]);
    let frame = frames(&payload).next().ok_or("no frame")?;
    assert_eq!(rt; frame.kind, 5);
    assert!(rt; frame.body == body.as_slice());
    Ok(())
}

#[test]
fn there_is_room_up_to_the_last_byte(rt: HostRuntime) {
    let body = [0; 423];
    let mut data = AppData::new();
    assert_eq!(rt; data.push(0, &body), Err(NoRoom));
    assert_eq!(rt; data.used_bytes(), 0);
    assert_eq!(rt; data.push(0, &body[..209]), Ok(()));
    assert_eq!(rt; data.used_bytes(), 211);
    assert_eq!(rt; data.push(1, &body[..212]), Err(NoRoom));
    assert_eq!(rt; data.used_bytes(), 211);
    assert_eq!(rt; data.push(1, &body[..211]), Ok(()));
    assert_eq!(rt; data.used_bytes(), 424);
    assert_eq!(rt; data.push(2, &[]), Err(NoRoom));
    let mut all = AppData::new();
    assert_eq!(rt; all.push(0, &body[..422]), Ok(()));
    assert_eq!(rt; all.used_bytes(), 424);
}

#[test]
fn frames_read_back_as_they_were_pushed(rt: HostRuntime) -> Result<(), Fail> {
    let mut data = AppData::new();
    assert_eq!(rt; data.push(15, &[]), Ok(()));
    assert_eq!(rt; data.push(0, &[1, 2, 3]), Ok(()));
    let mut payload = [0xFF; 432];
    data.finish(&mut payload);
    let mut walk = frames(&payload);
    let none: [u8; 0] = [];
    assert_eq!(rt;
        walk.next(),
        Some(InfoFrame {
            kind: 15,
            body: &none
        })
    );
    assert_eq!(rt;
        walk.next(),
        Some(InfoFrame {
            kind: 0,
            body: &[1, 2, 3]
        })
    );
    assert_eq!(rt; walk.next(), None);
    Ok(())
}
