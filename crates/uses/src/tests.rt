//! Each caller once.

use crate::{frame_of_report, payload_through_air, picture_after};
use fisb_time::Moment;
use ground_core::{Ground, Station};
use life_table::LifeTable;
use receiver_core::Receiver;
use uplink_frame::PAYLOAD_LENGTH;

#[test]
fn a_report_goes_to_the_picture(rt: HostRuntime) {
    let alloc = rt.alloc();
    let Some(moment) = Moment::new(1_699_999_980) else {
        return assert!(rt; false, "the moment is in range");
    };
    let (Ok(sent), Ok(heard)) = (
        LifeTable::default_table(alloc),
        LifeTable::default_table(alloc),
    ) else {
        return assert!(rt; false, "there is memory");
    };
    let station = Station {
        lat: 0,
        lon: 0,
        position_valid: false,
        site: 0,
    };
    let mut ground = Ground::new(alloc, station, sent);
    let Some(frame) = frame_of_report(&mut ground, moment, "METAR KSEA", 3) else {
        return assert!(rt; false, "the report is accepted");
    };
    assert_eq!(rt; frame.bodies, 1);
    let mut receiver = Receiver::new(alloc, heard);
    let Some(shown) = picture_after(alloc, &mut receiver, moment, &frame.air) else {
        return assert!(rt; false, "the frame is heard");
    };
    assert_eq!(rt; shown.len(), 1);
}

#[test]
fn a_payload_comes_through(rt: HostRuntime) {
    let mut payload = [7; PAYLOAD_LENGTH];
    payload[6] = 0xA0;
    assert!(rt; payload_through_air(&payload, 551, 1) == Ok(payload));
}
