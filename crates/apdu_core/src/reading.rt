//! The APDU of a body.
ghost use Rattle.std.specs.Prelude.{◌≡◌, ℕ, ◌+◌, ◌≤◌, List, length};
ghost use Rattle.apdu_core.specs.Apdu.{apdu_of, form_of, header_length, is_bad, product_of};
ghost use Rattle.apdu_core.specs.Apdu.{apdu_of_header, segmentation_in, time_in, time_width};
ghost use Rattle.apdu_core.specs.Spelling.{IsReadingOf};
ghost use Rattle.apdu_core.specs.Views.{AreBitsOf, answer_view};

use crate::apdu::{Apdu, Seg};
use crate::bits::{Bits, bits_of};
use crate::fault::ApduFault;
use crate::sizes::{header_length, time_width};
use fisb_time::{TimeFields, TimeForm};

/// The bytes of the shortest header.
const LEAST_LENGTH: usize = 4;

/// The product in a body, 0 where the body has fewer than 4 bytes.
pub fn product_of(body: &[u8]) -> u16
    ensures { result ≡ product_of body.now }
{
    if body.len() < LEAST_LENGTH {
        return 0;
    }
    let (front, _) = body.split_at(LEAST_LENGTH);
    bits_of(front).field(3, 11)
}

/// The APDU of a body. Its payload is the whole rest of the body, lent; fill bits are not looked at.
///
/// The tests are made in this order: fewer than 4 bytes is `Short`, a flag is `Flagged`, fewer bytes than the header needs
/// is `Short`, and a segment's number that is not from 1 to the count is `BadSegment`.
pub fn read_apdu<'a>(body: &'a [u8]) -> Result<Apdu<'a>, ApduFault>
    ensures whole { answer_view result ≡ apdu_of body.now }
    ensures spelled { IsReadingOf body.now (answer_view result) }
{
    if body.len() < LEAST_LENGTH {
        return Err(ApduFault::Short);
    }
    let (front, _) = body.split_at(LEAST_LENGTH);
    let bits = bits_of(front);
    if bits.field(0, 3) != 0 {
        return Err(ApduFault::Flagged);
    }
    let is_segmented = bits.field(14, 1) == 1;
    let form = form_of(bits.field(15, 2));
    let length = header_length(form, is_segmented);
    if body.len() < length {
        return Err(ApduFault::Short);
    }
    let (header, payload) = body.split_at(length);
    apdu_of_header(form, is_segmented, header, payload)
}

/// The form of a number.
fn form_of(number: u16) -> TimeForm
    ensures { result ≡ form_of number }
{
    match number {
        0 => TimeForm::Minute,
        1 => TimeForm::Second,
        2 => TimeForm::DayMinute,
        _ => TimeForm::DaySecond,
    }
}

/// The APDU of a header whose flags are 0, and of the bytes after it.
fn apdu_of_header<'a>(
    form: TimeForm,
    is_segmented: bool,
    header: &[u8],
    payload: &'a [u8],
) -> Result<Apdu<'a>, ApduFault>
    requires { length header.now ≡ header_length form is_segmented }
    ensures { answer_view result ≡ apdu_of_header form is_segmented header.now payload.now }
{
    let bits = bits_of(header);
    let mut seg = None;
    if is_segmented {
        let read = read_segment(form, bits);
        if is_bad(read) {
            return Err(ApduFault::BadSegment);
        }
        seg = Some(read);
    }
    Ok(Apdu {
        product: bits.field(3, 11),
        form,
        time: read_time(form, bits),
        seg,
        payload,
    })
}

/// Whether there is no segment of this number.
fn is_bad(seg: Seg) -> bool
    ensures { result ≡ is_bad seg }
{
    seg.count == 0 || seg.number == 0 || seg.count < seg.number
}

/// The time in the bits of a header.
fn read_time(form: TimeForm, bits: Bits) -> TimeFields
    requires most { bits.width ≤ 72 }
    requires whole { 17 + time_width form ≤ bits.width }
    ensures { (header : List ℕ) → AreBitsOf header bits → result ≡ time_in form header }
{
    let (month, day, place) = match form {
        TimeForm::Minute | TimeForm::Second => (0, 0, 17),
        TimeForm::DayMinute | TimeForm::DaySecond => {
            (bits.field(17, 4) as u8, bits.field(21, 5) as u8, 26)
        }
    };
    let seconds = match form {
        TimeForm::Minute | TimeForm::DayMinute => 0,
        TimeForm::Second | TimeForm::DaySecond => bits.field(place + 11, 6) as u8,
    };
    TimeFields {
        month,
        day,
        hours: bits.field(place, 5) as u8,
        minutes: bits.field(place + 5, 6) as u8,
        seconds,
    }
}

/// The segment in the bits of a header that has one.
fn read_segment(form: TimeForm, bits: Bits) -> Seg
    requires most { bits.width ≤ 72 }
    requires whole { 45 + time_width form ≤ bits.width }
    ensures { (header : List ℕ) → AreBitsOf header bits → result ≡ segmentation_in form header }
{
    let place = 17 + time_width(form);
    Seg {
        file: bits.field(place, 10),
        count: bits.field(place + 10, 9),
        number: bits.field(place + 19, 9),
    }
}
