use uplink_weave::laws::{
    burst_gives_payload, burst_is_spread, frame_gives_payload, functions_of_a_frame,
    near_frame_gives_payload, near_gives_payload, unique_payload, woven_gives_payload,
    woven_is_the_frame,
};
use uplink_weave::{Lost, unweave, weave};

// A header without a position and one information frame, and zeros after them.
fn one_report() -> [u8; 432] {
    let front = [
        0x00, 0x00, 0x00, 0x00, 0x00, 0x00, 0xa0, 0x00, 0x06, 0x80, 0x06, 0x74, 0x58, 0xd0, 0x34,
        0x55, 0x01, 0x4a, 0x02, 0xd3, 0x14, 0x10, 0x00,
    ];
    let mut payload = [0; 432];
    for i in 0..23 {
        payload[i] = front[i];
    }
    payload
}

#[test]
fn zeros_unweave_to_zeros_with_nothing_corrected(rt: HostRuntime) {
    let air = [0; 552];
    let mut payload = [7; 432];
    assert_eq!(rt; unweave(&air, &mut payload), Ok([0; 6]));
    assert!(rt; payload == [0; 432]);
}

#[test]
fn a_woven_report_gives_its_payload_back(rt: HostRuntime) {
    woven_gives_payload();
    near_gives_payload();
    unique_payload();
    woven_is_the_frame();
    functions_of_a_frame();
    frame_gives_payload();
    let payload = one_report();
    let mut air = [0xff; 552];
    weave(&payload, &mut air);
    let mut back = [0xff; 432];
    assert_eq!(rt; unweave(&air, &mut back), Ok([0; 6]));
    assert!(rt; back == payload);
}

#[test]
fn a_burst_of_sixty_is_mended_with_ten_bytes_of_each_block(rt: HostRuntime) {
    burst_is_spread();
    burst_gives_payload();
    near_frame_gives_payload();
    let payload = one_report();
    let mut air = [0; 552];
    weave(&payload, &mut air);
    for place in 100..160 {
        air[place] ^= 0xff;
    }
    let mut back = [0xff; 432];
    assert_eq!(rt; unweave(&air, &mut back), Ok([10; 6]));
    assert!(rt; back == payload);
}

#[test]
fn eleven_wrong_bytes_lose_their_block_and_the_payload_stays(rt: HostRuntime) {
    let mut air = [0; 552];
    weave(&one_report(), &mut air);
    for k in 0..11 {
        air[6 * k + 2] ^= 0x10;
    }
    let mut payload = [7; 432];
    assert_eq!(rt; unweave(&air, &mut payload), Err(Lost { block: 2 }));
    assert!(rt; payload == [7; 432]);
}

#[test]
fn of_two_lost_blocks_the_first_is_named(rt: HostRuntime) {
    let mut air = [0; 552];
    for k in 0..11 {
        air[6 * k + 5] = 1;
        air[6 * k + 3] = 1;
    }
    let mut payload = [7; 432];
    assert_eq!(rt; unweave(&air, &mut payload), Err(Lost { block: 3 }));
    assert!(rt; payload == [7; 432]);
}

#[test]
fn the_counts_are_those_of_their_blocks(rt: HostRuntime) {
    let mut air = [0; 552];
    for number in 0..6 {
        for k in 0..number + 1 {
            air[6 * (80 + k) + number] = 1;
        }
    }
    let mut payload = [7; 432];
    assert_eq!(rt; unweave(&air, &mut payload), Ok([1, 2, 3, 4, 5, 6]));
    assert!(rt; payload == [0; 432]);
}
