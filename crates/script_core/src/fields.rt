//! The fields of a line, and the small forms that they have.
ghost use Rattle.std.specs.Prelude.{◌≡◌, ◌==◌, ◌*◌, ◌<◌, ◌≤◌, ◌^◌, if◌then◌else◌, ◌∷◌, []};
ghost use Rattle.std.specs.Prelude.{unwrap_or, None, Some, IfOk, IfSome, MatchOption, length};
ghost use Rattle.std.specs.Prelude.{option_copied};
ghost use Rattle.std.specs.List.{slice_split, before_first, after_first};
ghost use Rattle.std.specs.Str.{bytes_eq};
ghost use Rattle.std.specs.Result.{result_ok};
ghost use Rattle.fisb_time.specs.Moment.{IsMoment};
ghost use Rattle.hex.specs.Hex.{decode_sized, hex_digit_value};
ghost use Rattle.script_core.specs.Fields.{parts_left, fields_left, number_within, moment_in};
ghost use Rattle.script_core.specs.Fields.{south_in, is_cells, intensities_in, block_number_in};
ghost use Rattle.script_core.specs.Fields.{numbers_in, air_in, has_leading_zero};

use crate::script_line::LineFault;
use fisb_time::Moment;
use fisb_wire::Numbers;
use memchr::memchr;
use radar_core::Cells;
use std::alloc::Global;
use uplink_weave::FRAME_BYTES;

/// The first moment of a line, in seconds.
const FIRST_MOMENT: u64 = 946_684_800;

/// The last moment of a line, in seconds.
const LAST_MOMENT: u64 = 4_102_444_799;

/// The number of cells of a block.
const CELLS: usize = 128;

/// The greatest number of a block.
const LAST_BLOCK: u64 = 1_048_575;

/// The next field of what is left of a line, and what stands after the space that ends it.
/// Nothing is left after a field that no space ends.
pub(crate) fn next_field(rest: Option<&[u8]>) -> Option<(&[u8], Option<&[u8]>)>
    ensures { MatchOption result
        (fields_left (option_copied rest.entry) ≡ [])
        (λ r. fields_left (option_copied rest.entry) ≡ r.0.now ∷ fields_left (option_copied r.1)) }
{
    next_part(rest, b' ')
}

/// The same, where the separator stands between the parts.
pub(crate) fn next_part(rest: Option<&[u8]>, separator: u8) -> Option<(&[u8], Option<&[u8]>)>
    ensures { MatchOption result
        (parts_left separator (option_copied rest.entry) ≡ [])
        (λ r. parts_left separator (option_copied rest.entry)
        ≡ r.0.now ∷ parts_left separator (option_copied r.1)) }
{
    match rest {
        Some(bytes) => Some(cut_at(bytes, separator)),
        None => None,
    }
}

/// What stands before the first byte that is the separator, and what stands after that byte, where there is one.
pub(crate) fn cut_at(bytes: &[u8], separator: u8) -> (&[u8], Option<&[u8]>)
    ensures parts { slice_split (λ b. b == separator) bytes.now
        ≡ result.0.now ∷ parts_left separator (option_copied result.1) }
    ensures front { result.0.now ≡ before_first (λ b. b == separator) bytes.now }
    ensures behind { unwrap_or (option_copied result.1) []
        ≡ after_first (λ b. b == separator) bytes.now }
{
    match memchr(separator, bytes) {
        Some(end) => {
            let (front, back) = bytes.split_at(end);
            (front, Some(back.split_at(1).1))
        }
        None => (bytes, None),
    }
}

pub(crate) fn is_word(field: &[u8], word: &str) -> bool
    ensures { result ≡ bytes_eq field.now word.now }
{
    field == word.as_bytes()
}

/// The number that a field spells in decimal digits, where it is one from `low` to `high`.
pub fn read_number(field: &[u8], low: u64, high: u64) -> Option<u64>
    ensures number { result ≡ number_within low high field.now }
    ensures range { IfSome result (λ number. (low ≤ number) × (number ≤ high)) }
{
    if has_leading_zero(field) || field.is_empty() {
        return None;
    }
    let most = u128::from(high);
    let mut value: u128 = 0;
    for digit in field {
        if !digit.is_ascii_digit() || value > most {
            return None;
        }
        value = 10 * value + u128::from(*digit - b'0');
    }
    if u128::from(low) <= value && value <= most {
        Some(value as u64)
    } else {
        None
    }
}

/// Whether the field has a zero in front of another byte.
fn has_leading_zero(field: &[u8]) -> bool
    ensures { result ≡ has_leading_zero field.now }
{
    match field {
        [first, _, ..] => *first == b'0',
        _ => false,
    }
}

/// The moment that a field spells.
pub(crate) fn read_moment(field: &[u8]) -> Option<Moment>
    ensures moment { result ≡ moment_in field.now }
    ensures range { IfSome result (λ moment. IsMoment moment) }
{
    match read_number(field, FIRST_MOMENT, LAST_MOMENT) {
        Some(seconds) => Moment::new(seconds),
        None => None,
    }
}

/// Whether the hemisphere that a field names is the southern one.
pub(crate) fn read_south(field: &[u8]) -> Option<bool>
    ensures { result ≡ south_in field.now }
{
    if is_word(field, "n") {
        Some(false)
    } else if is_word(field, "s") {
        Some(true)
    } else {
        None
    }
}

/// The intensities of the cells of a block, a digit a cell.
pub(crate) fn read_cells(field: &[u8]) -> Option<Cells>
    ensures { result ≡ intensities_in field.now }
{
    if !is_cells(field) {
        return None;
    }
    let mut cells = [0; CELLS];
    for place in 0..CELLS {
        cells[place] = field[place] - b'0';
    }
    Cells::new(cells)
}

/// Whether the field has the digits of the cells of a block.
fn is_cells(field: &[u8]) -> bool
    ensures { result ≡ is_cells field.now }
{
    field.len() == CELLS && field.iter().all(|digit| matches!(*digit, b'0'..=b'7'))
}

/// The number of a block.
pub(crate) fn read_block_number(field: &[u8]) -> Option<u32>
    ensures { result ≡ block_number_in field.now }
{
    match read_number(field, 0, LAST_BLOCK) {
        Some(number) => Some(number as u32),
        None => None,
    }
}

/// The numbers of blocks that a field joins by commas.
pub(crate) fn read_numbers(alloc: Global, field: &[u8]) -> Result<Numbers, LineFault>
    ensures numbers { IfOk result (λ numbers. numbers_in field.now ≡ Some numbers) }
    ensures syntax { result ≡ Err LineFault.Syntax → numbers_in field.now ≡ None }
{
    let mut items = Vec::new(alloc);
    let mut rest = Some(field);
    while let Some((part, behind)) = next_part(rest, b',') {
        let Some(number) = read_block_number(part) else {
            return Err(LineFault::Syntax);
        };
        let Ok(()) = items.push(number) else {
            return Err(LineFault::NoMemory);
        };
        rest = behind;
    }
    Ok(Numbers::of(items))
}

/// The bytes of a frame that a field spells in hexadecimal digits.
pub(crate) fn read_air(field: &[u8]) -> Option<[u8; FRAME_BYTES]>
    ensures { result ≡ air_in field.now }
{
    let mut air = [0; FRAME_BYTES];
    if field.len() == 2 * air.len() && read_pairs(field, &mut air) {
        Some(air)
    } else {
        None
    }
}

/// Writes the bytes that the digits spell, two digits a byte, and answers whether all are digits.
/// No branch depends on a digit, so that many are read at a time.
fn read_pairs(digits: &[u8], bytes: &mut [u8]) -> bool
    requires { length digits.now ≡ 2 * length bytes.old }
    ensures { result_ok (decode_sized digits.now (length bytes.old))
        ≡ (if result then Some bytes.new else None) }
{
    let mut greatest = 0u8;
    for place in 0..bytes.len() {
        let high = digit_value(digits[2 * place]);
        let low = digit_value(digits[2 * place + 1]);
        greatest = greatest.max(high).max(low);
        bytes[place] = high.wrapping_mul(16).wrapping_add(low);
    }
    greatest < 16
}

/// The value of a hexadecimal digit of either case, and 255 for another byte.
fn digit_value(digit: u8) -> u8
    ensures { result ≡ unwrap_or (hex_digit_value digit) 255 }
{
    match digit {
        b'0'..=b'9' => digit - b'0',
        b'A'..=b'F' => digit - b'A' + 10,
        b'a'..=b'f' => digit - b'a' + 10,
        _ => 255,
    }
}
