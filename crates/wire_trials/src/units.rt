//! Bodies as they are on the air, and the ends of each form's ranges.
ghost use Rattle.std.specs.Prelude.{◌≡◌, ◌≤◌, length};
ghost use Rattle.apdu_core.specs.Spelling.{FitsApdu, FitsTime};
ghost use Rattle.apdu_core.specs.Views.{apdu_view};

use apdu_core::laws::apdu_reads_back;
use apdu_core::{Apdu, ApduFault, Seg, product_of, read_apdu, write_apdu};
use fisb_time::{Moment, TimeFields, TimeForm};

/// Hours and minutes, and nothing else.
fn hour_and_minute(hours: u8, minutes: u8) -> TimeFields
    ensures month { result.month ≡ 0 }
    ensures day { result.day ≡ 0 }
    ensures hours { result.hours ≡ hours }
    ensures minutes { result.minutes ≡ minutes }
    ensures seconds { result.seconds ≡ 0 }
{
    TimeFields {
        month: 0,
        day: 0,
        hours,
        minutes,
        seconds: 0,
    }
}

/// Whether the APDU is written as these bytes, leaves the rest of the room alone, and reads back.
fn is_written_as(apdu: &Apdu<'_>, expected: &[u8]) -> bool
    requires fits { FitsApdu (apdu_view apdu.now) }
    requires short { length (apdu_view apdu.now).payload ≤ 9 }
{
    apdu_reads_back();
    let mut room = [0xAA; 18];
    let number = write_apdu(apdu, &mut room);
    let (written, rest) = room.split_at(number);
    written == expected && rest.iter().all(|byte| *byte == 0xAA) && read_apdu(written) == Ok(*apdu)
}

#[test]
fn an_hour_and_a_minute_with_nine_bytes(rt: HostRuntime) {
    let apdu = Apdu {
        product: 413,
        form: TimeForm::Minute,
        time: hour_and_minute(12, 34),
        seg: None,
        payload: &[1, 2, 3, 4, 5, 6, 7, 8, 9],
    };
    let body = [0x06, 0x74, 0x32, 0x20, 1, 2, 3, 4, 5, 6, 7, 8, 9];
    assert!(rt; is_written_as(&apdu, &body));
    assert_eq!(rt; product_of(&body), 413);
}

#[test]
fn a_leap_day(rt: HostRuntime) {
    let apdu = Apdu {
        product: 413,
        form: TimeForm::DayMinute,
        time: TimeFields {
            month: 2,
            day: 29,
            hours: 12,
            minutes: 0,
            seconds: 0,
        },
        seg: None,
        payload: &[],
    };
    assert!(rt; is_written_as(&apdu, &[0x06, 0x75, 0x17, 0x58, 0x00]));
}

#[test]
fn the_first_of_two_segments(rt: HostRuntime) {
    let apdu = Apdu {
        product: 413,
        form: TimeForm::Minute,
        time: hour_and_minute(22, 13),
        seg: Some(Seg {
            file: 0,
            count: 2,
            number: 1,
        }),
        payload: &[0x05],
    };
    assert!(rt; is_written_as(&apdu, &[0x06, 0x76, 0x58, 0xD0, 0x00, 0x04, 0x01, 0x05]));
}

/// The greatest fields that a form has bits for.
fn greatest_time(form: TimeForm) -> TimeFields
    ensures { FitsTime form result }
{
    let time = TimeFields {
        month: 0,
        day: 0,
        hours: 31,
        minutes: 63,
        seconds: 0,
    };
    match form {
        TimeForm::Minute => time,
        TimeForm::Second => TimeFields {
            seconds: 63,
            ..time
        },
        TimeForm::DayMinute => TimeFields {
            month: 15,
            day: 31,
            ..time
        },
        TimeForm::DaySecond => TimeFields {
            month: 15,
            day: 31,
            seconds: 63,
            ..time
        },
    }
}

/// Whether the least and the greatest values of a form are written as these bytes, without a segment and then with one.
fn ends_are(form: TimeForm, expected: [&[u8]; 4]) -> bool {
    let least = Apdu {
        product: 0,
        form,
        time: hour_and_minute(0, 0),
        seg: None,
        payload: &[],
    };
    let greatest = Apdu {
        product: 2047,
        time: greatest_time(form),
        ..least
    };
    let first = Seg {
        file: 0,
        count: 1,
        number: 1,
    };
    let last = Seg {
        file: 1023,
        count: 511,
        number: 511,
    };
    let in_first = Apdu {
        seg: Some(first),
        ..least
    };
    let in_last = Apdu {
        seg: Some(last),
        ..greatest
    };
    is_written_as(&least, expected[0])
        && is_written_as(&greatest, expected[1])
        && is_written_as(&in_first, expected[2])
        && is_written_as(&in_last, expected[3])
}

#[test]
fn the_ends_of_each_form(rt: HostRuntime) {
    assert!(rt;
        ends_are(
            TimeForm::Minute,
            [
                &[0x00, 0x00, 0x00, 0x00],
                &[0x1F, 0xFC, 0x7F, 0xF0],
                &[0x00, 0x02, 0x00, 0x00, 0x00, 0x02, 0x01],
                &[0x1F, 0xFE, 0x7F, 0xFF, 0xFF, 0xFF, 0xFF],
            ]
        )
    );
    assert!(rt;
        ends_are(
            TimeForm::Second,
            [
                &[0x00, 0x00, 0x80, 0x00, 0x00],
                &[0x1F, 0xFC, 0xFF, 0xFF, 0xC0],
                &[0x00, 0x02, 0x80, 0x00, 0x00, 0x00, 0x08, 0x04],
                &[0x1F, 0xFE, 0xFF, 0xFF, 0xFF, 0xFF, 0xFF, 0xFC],
            ]
        )
    );
    assert!(rt;
        ends_are(
            TimeForm::DayMinute,
            [
                &[0x00, 0x01, 0x00, 0x00, 0x00],
                &[0x1F, 0xFD, 0x7F, 0xFF, 0xF8],
                &[0x00, 0x03, 0x00, 0x00, 0x00, 0x00, 0x01, 0x00, 0x80],
                &[0x1F, 0xFF, 0x7F, 0xFF, 0xFF, 0xFF, 0xFF, 0xFF, 0x80],
            ]
        )
    );
    assert!(rt;
        ends_are(
            TimeForm::DaySecond,
            [
                &[0x00, 0x01, 0x80, 0x00, 0x00, 0x00],
                &[0x1F, 0xFD, 0xFF, 0xFF, 0xFF, 0xE0],
                &[0x00, 0x03, 0x80, 0x00, 0x00, 0x00, 0x00, 0x04, 0x02],
                &[0x1F, 0xFF, 0xFF, 0xFF, 0xFF, 0xFF, 0xFF, 0xFF, 0xFE],
            ]
        )
    );
}

#[test]
fn refusals_have_their_cause(rt: HostRuntime) {
    assert_eq!(rt; read_apdu(&[]), Err(ApduFault::Short));
    assert_eq!(rt; read_apdu(&[0x06, 0x74, 0x32]), Err(ApduFault::Short));
    assert_eq!(rt; read_apdu(&[0x26, 0x74, 0x32]), Err(ApduFault::Short));
    for flag in [0x20, 0x40, 0x80] {
        assert_eq!(rt;
            read_apdu(&[0x06 | flag, 0x74, 0x32, 0x20]),
            Err(ApduFault::Flagged)
        );
        assert_eq!(rt;
            read_apdu(&[0x06 | flag, 0x75, 0x17, 0x58]),
            Err(ApduFault::Flagged)
        );
    }
}

/// Whether the body is read, and is too short without its last byte.
fn is_no_byte_longer(body: &[u8]) -> bool {
    let [front @ .., _] = body else {
        return false;
    };
    read_apdu(body).is_ok() && read_apdu(front) == Err(ApduFault::Short)
}

#[test]
fn a_header_that_is_a_byte_too_short(rt: HostRuntime) {
    assert!(rt; is_no_byte_longer(&[0x06, 0x74, 0x00, 0x00]));
    assert!(rt; is_no_byte_longer(&[0x06, 0x74, 0x80, 0x00, 0x00]));
    assert!(rt; is_no_byte_longer(&[0x06, 0x75, 0x00, 0x00, 0x00]));
    assert!(rt; is_no_byte_longer(&[0x06, 0x75, 0x80, 0x00, 0x00, 0x00]));
    assert!(rt; is_no_byte_longer(&[0x06, 0x76, 0x00, 0x00, 0x00, 0x02, 0x01]));
    assert!(rt; is_no_byte_longer(&[0x06, 0x76, 0x80, 0x00, 0x00, 0x00, 0x08, 0x04]));
    assert!(rt; is_no_byte_longer(&[0x06, 0x77, 0x00, 0x00, 0x00, 0x00, 0x01, 0x00, 0x80]));
    assert!(rt; is_no_byte_longer(&[0x06, 0x77, 0x80, 0x00, 0x00, 0x00, 0x00, 0x04, 0x02]));
}

/// The segment in a body of 7 bytes with hours and minutes, a count and a number below 256.
fn seg_of_body(count: u8, number: u8) -> Result<Option<Seg>, ApduFault> {
    let body = [0x06, 0x76, 0x58, 0xD0, count / 128, count % 128 * 2, number];
    read_apdu(&body).map(|apdu| apdu.seg)
}

#[test]
fn segments_are_numbered_up_to_their_count(rt: HostRuntime) {
    for (count, number) in [(0, 0), (0, 1), (2, 0), (2, 3), (1, 255)] {
        assert_eq!(rt; seg_of_body(count, number), Err(ApduFault::BadSegment));
    }
    for (count, number) in [(1, 1), (2, 1), (2, 2), (255, 255)] {
        let expected = Seg {
            file: 0,
            count: u16::from(count),
            number: u16::from(number),
        };
        assert_eq!(rt; seg_of_body(count, number), Ok(Some(expected)));
    }
}

#[test]
fn fill_bits_are_not_looked_at(rt: HostRuntime) {
    for (zero, one) in [
        (
            [0x06, 0x74, 0x32, 0x20, 0x11],
            [0x06, 0x74, 0x32, 0x2F, 0x11],
        ),
        (
            [0x06, 0x74, 0xB2, 0x21, 0x40],
            [0x06, 0x74, 0xB2, 0x21, 0x7F],
        ),
        (
            [0x06, 0x75, 0x17, 0x58, 0x00],
            [0x06, 0x75, 0x17, 0x58, 0x07],
        ),
    ] {
        assert!(rt; read_apdu(&zero).is_ok());
        assert_eq!(rt; read_apdu(&zero), read_apdu(&one));
    }
}

#[test]
fn the_product_of_a_short_body_is_0(rt: HostRuntime) {
    assert_eq!(rt; product_of(&[0x06, 0x74, 0x32]), 0);
    assert_eq!(rt; product_of(&[0x06, 0x74, 0x32, 0x20]), 413);
    assert_eq!(rt; product_of(&[0xFF, 0xFE, 0x00, 0x00]), 2047);
    assert_eq!(rt; product_of(&[0xE0, 0x03, 0xFF, 0xFF]), 0);
}
