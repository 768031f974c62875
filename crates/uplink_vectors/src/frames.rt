//! Frames on the air, byte by byte.
ghost use Rattle.std.specs.Prelude.{◌≡◌, ◌+◌, ◌<◌, ◌≤◌};

use crate::code_words::NINETEEN_ROOTS;
use uplink_weave::{Lost, unweave, weave};

// The 552 bytes on the air of the frame below, in 1,104 hexadecimal digits.
const REPORT_ON_THE_AIR: [&str; 12] = [
    "000000000000000000000000000000000000000000000000000000000000000000000000a0000000000000000000",
    "0000060000000000800000000000060000000000740000000000580000000000d000000000003400000000005500",
    "000000000100000000004a0000000000020000000000d30000000000140000000000100000000000000000000000",
    "00000000000000000000000000000000000000000000000000000000000000000000000000000000000000000000",
    "00000000000000000000000000000000000000000000000000000000000000000000000000000000000000000000",
    "00000000000000000000000000000000000000000000000000000000000000000000000000000000000000000000",
    "00000000000000000000000000000000000000000000000000000000000000000000000000000000000000000000",
    "00000000000000000000000000000000000000000000000000000000000000000000000000000000000000000000",
    "00000000000000000000000000000000000000000000000000000000000000000000000000000000000000000000",
    "0000000000000000000000000000000000009a000000000089000000000020000000000035000000000080000000",
    "0000170000000000e70000000000750000000000c50000000000cb0000000000ab0000000000fb0000000000c700",
    "00000000730000000000da0000000000420000000000bc0000000000b50000000000210000000000ca0000000000",
];

// A header without a position, one information frame of 15 bytes, and zeros after it.
fn report() -> [u8; 432] {
    let front = [
        0x00, 0x00, 0x00, 0x00, 0x00, 0x00, 0xa0, 0x00, 0x06, 0x80, 0x06, 0x74, 0x58, 0xd0, 0x34,
        0x55, 0x01, 0x4a, 0x02, 0xd3, 0x14, 0x10, 0x00,
    ];
    let mut payload = [0; 432];
    for i in 0..23 {
        payload[i] = front[i];
    }
    payload
}

// The character of a hexadecimal digit.
fn digit(number: u8) -> u8
    requires { number < 16 }
    ensures low { number < 10 → result ≡ 48 + number }
    ensures high { 10 ≤ number → result ≡ 87 + number }
{
    if number < 10 {
        b'0' + number
    } else {
        b'a' + (number - 10)
    }
}

#[test]
fn a_report_is_woven_to_the_bytes_of_the_definition(rt: HostRuntime) {
    let mut air = [0xff; 552];
    weave(&report(), &mut air);
    for (number, line) in REPORT_ON_THE_AIR.iter().enumerate() {
        let digits = line.as_bytes();
        assert_eq!(rt; digits.len(), 92);
        for i in 0..46 {
            let byte = air[46 * number + i];
            assert_eq!(rt; digits.get(2 * i), Some(&digit(byte / 16)));
            assert_eq!(rt; digits.get(2 * i + 1), Some(&digit(byte % 16)));
        }
    }
    let mut payload = [0xff; 432];
    assert_eq!(rt; unweave(&air, &mut payload), Ok([0; 6]));
    assert!(rt; payload == report());
}

#[test]
fn each_block_has_its_own_parity(rt: HostRuntime) {
    let mut payload = [0u8; 432];
    for i in 0..432 {
        payload[i] = ((7 * i + 3) % 256) as u8;
    }
    let mut air = [0; 552];
    weave(&payload, &mut air);
    assert_eq!(rt; air[48], 59);
    assert_eq!(rt; air[1], 251);
    for (block, parity) in [0xc7, 0xc7, 0x68, 0x12, 0x77, 0xa9].iter().enumerate() {
        assert_eq!(rt; air[432 + block], *parity);
    }
    assert_eq!(rt; air[551], 0x36);
}

#[test]
fn a_frame_whose_block_2_has_nineteen_roots_has_lost_block_2(rt: HostRuntime) {
    let mut air = [0; 552];
    for i in 0..20 {
        air[6 * (72 + i) + 2] = NINETEEN_ROOTS[i];
    }
    let mut payload = [7; 432];
    assert_eq!(rt; unweave(&air, &mut payload), Err(Lost { block: 2 }));
    assert!(rt; payload == [7; 432]);
}
