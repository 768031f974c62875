//! The bytes of an APDU.
ghost use Rattle.std.specs.Prelude.{◌≡◌, ℕ, ◌+◌, ◌-◌, ◌*◌, ◌^◌, ◌<◌, ◌≤◌, ◌∷◌, [], ◌++◌, List};
ghost use Rattle.std.specs.Prelude.{drop, length, is_some};
ghost use Rattle.bit_fields.specs.Bits.{as_number};
ghost use Rattle.apdu_core.specs.Apdu.{apdu_bytes, form_number, header_fields, segment_fields};
ghost use Rattle.apdu_core.specs.Apdu.{time_fields};
ghost use Rattle.apdu_core.specs.Spelling.{FitsApdu, FitsSegmentation, FitsTime};
ghost use Rattle.apdu_core.specs.Views.{apdu_view};

use crate::apdu::{Apdu, Seg};
use crate::sizes::{header_length, header_width};
use fisb_time::{TimeFields, TimeForm};

/// Writes an APDU at the front of a room, with the flags and the fill bits 0, and answers the number of bytes.
pub fn write_apdu(apdu: &Apdu<'_>, room: &mut [u8]) -> usize
    requires fits { FitsApdu (apdu_view apdu.now) }
    requires holds { length (apdu_bytes (apdu_view apdu.now)) ≤ length room.old }
    ensures written { room.new ≡ apdu_bytes (apdu_view apdu.now)
        ++ drop (length (apdu_bytes (apdu_view apdu.now))) room.old }
    ensures number { result ≡ length (apdu_bytes (apdu_view apdu.now)) }
{
    let is_segmented = apdu.seg.is_some();
    let length = header_length(apdu.form, is_segmented);
    let fill = 8 * length - header_width(apdu.form, is_segmented);
    let bytes = (header_number(apdu) << fill).to_be_bytes();
    let end = length + apdu.payload.len();
    room[..length].copy_from_slice(&bytes[16 - length..]);
    room[length..end].copy_from_slice(apdu.payload);
    end
}

/// The fields of a header before its fill as one number.
fn header_number(apdu: &Apdu<'_>) -> u128
    requires { FitsApdu (apdu_view apdu.now) }
    ensures value { result ≡ as_number 0 (header_fields (apdu_view apdu.now)) }
    ensures bound { result < 2 ^ 71 }
{
    let segmented = u128::from(apdu.seg.is_some());
    let front = (u128::from(apdu.product) * 2 + segmented) * 4 + u128::from(form_number(apdu.form));
    let timed = with_time(front, apdu.form, &apdu.time);
    with_segment(timed, apdu.seg)
}

/// The number of a form.
fn form_number(form: TimeForm) -> u8
    ensures { result ≡ form_number form }
{
    match form {
        TimeForm::Minute => 0,
        TimeForm::Second => 1,
        TimeForm::DayMinute => 2,
        TimeForm::DaySecond => 3,
    }
}

/// Puts the fields of a time after a number.
fn with_time(number: u128, form: TimeForm, time: &TimeFields) -> u128
    requires small { number < 2 ^ 17 }
    requires fits { FitsTime form time.now }
    ensures value { result ≡ as_number number (time_fields form time.now) }
    ensures bound { result < 2 ^ 43 }
{
    let dated = match form {
        TimeForm::Minute | TimeForm::Second => number,
        TimeForm::DayMinute | TimeForm::DaySecond => {
            (number * 16 + u128::from(time.month)) * 32 + u128::from(time.day)
        }
    };
    let timed = (dated * 32 + u128::from(time.hours)) * 64 + u128::from(time.minutes);
    match form {
        TimeForm::Minute | TimeForm::DayMinute => timed,
        TimeForm::Second | TimeForm::DaySecond => timed * 64 + u128::from(time.seconds),
    }
}

/// Puts the fields of a segment, where there is one, after a number.
fn with_segment(number: u128, seg: Option<Seg>) -> u128
    requires small { number < 2 ^ 43 }
    requires fits { FitsSegmentation seg }
    ensures value { result ≡ as_number number (segment_fields seg) }
    ensures bound { result < 2 ^ 71 }
{
    match seg {
        None => number,
        Some(seg) => {
            ((number * 1024 + u128::from(seg.file)) * 512 + u128::from(seg.count)) * 512
                + u128::from(seg.number)
        }
    }
}
