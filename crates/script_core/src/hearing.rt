//! The lines of frames that are heard: their bytes, or the fields PLACE=XX of their wrong bytes.
ghost use Rattle.std.specs.Prelude.{◌≡◌, ℕ, ◌<◌, ◌≤◌, All, IfOk, IfSome, None, Some, length};
ghost use Rattle.std.specs.Prelude.{option_copied, option_map};
ghost use Rattle.uplink_weave.specs.Woven.{frame_bytes};
ghost use Rattle.script_core.specs.Fields.{fields_left, byte_in, hear_line, hex_digit, rx_line};
ghost use Rattle.script_core.specs.Fields.{wrong_byte_in, wrong_from};
ghost use Rattle.script_core.specs.LineView.{line_view, HasRanges};

use crate::fields::{cut_at, next_field, read_air, read_moment, read_number};
use crate::script_line::{Line, LineFault};
use crate::wrong::Wrong;
use std::alloc::Global;

/// The greatest number that a line can give a frame.
const LAST_FRAME: u64 = 4_294_967_295;

/// The last place of a frame.
const LAST_PLACE: u64 = 551;

/// `rx MOMENT HEX`
pub(crate) fn read_rx(rest: Option<&[u8]>) -> Option<Line>
    ensures { option_map line_view result ≡ rx_line (fields_left (option_copied rest.entry)) }
{
    let Some((moment, rest)) = next_field(rest) else {
        return None;
    };
    let Some((digits, rest)) = next_field(rest) else {
        return None;
    };
    let None = next_field(rest) else {
        return None;
    };
    let Some(moment) = read_moment(moment) else {
        return None;
    };
    let Some(air) = read_air(digits) else {
        return None;
    };
    Some(Line::Rx { moment, air })
}

/// `hear MOMENT FRAME` and any number of ` PLACE=XX`
pub(crate) fn read_hear(alloc: Global, rest: Option<&[u8]>) -> Result<Line, LineFault>
    ensures line { IfOk result (λ read.
        hear_line (fields_left (option_copied rest.entry)) ≡ Some (line_view read)) }
    ensures syntax { result ≡ Err LineFault.Syntax →
        hear_line (fields_left (option_copied rest.entry)) ≡ None }
    ensures no_memory { result ≡ Err LineFault.NoMemory →
        2 < length (fields_left (option_copied rest.entry)) }
{
    let Some((moment, rest)) = next_field(rest) else {
        return Err(LineFault::Syntax);
    };
    let Some((frame, places)) = next_field(rest) else {
        return Err(LineFault::Syntax);
    };
    let Some(moment) = read_moment(moment) else {
        return Err(LineFault::Syntax);
    };
    let Some(frame) = read_number(frame, 0, LAST_FRAME) else {
        return Err(LineFault::Syntax);
    };
    match read_wrong(alloc, places) {
        Ok(wrong) => Ok(Line::Hear {
            moment,
            frame: frame as u32,
            wrong,
        }),
        Err(fault) => Err(fault),
    }
}

/// The wrong bytes that the fields spell which are left: each place is above the one before it.
fn read_wrong(alloc: Global, rest: Option<&[u8]>) -> Result<Wrong, LineFault>
    ensures wrong { IfOk result (λ wrong.
        wrong_from 0 (fields_left (option_copied rest.entry)) ≡ Some wrong) }
    ensures syntax { result ≡ Err LineFault.Syntax →
        wrong_from 0 (fields_left (option_copied rest.entry)) ≡ None }
    ensures no_memory { result ≡ Err LineFault.NoMemory →
        0 < length (fields_left (option_copied rest.entry)) }
{
    let mut items = Vec::new(alloc);
    let mut rest = rest;
    let mut least = 0;
    while let Some((field, behind)) = next_field(rest) {
        let Some((place, byte)) = read_wrong_byte(field, least) else {
            return Err(LineFault::Syntax);
        };
        let Ok(()) = items.push((place, byte)) else {
            return Err(LineFault::NoMemory);
        };
        least = u64::from(place) + 1;
        rest = behind;
    }
    Ok(Wrong::of(items))
}

/// The place, from the least one on, and the byte of a field PLACE=XX.
fn read_wrong_byte(field: &[u8], least: u64) -> Option<(u16, u8)>
    ensures wrong { result ≡ wrong_byte_in least field.now }
    ensures range { IfSome result (λ one. (one.0 < frame_bytes) × (one.1 < 256)) }
{
    let (place, Some(byte)) = cut_at(field, b'=') else {
        return None;
    };
    let Some(place) = read_number(place, least, LAST_PLACE) else {
        return None;
    };
    match read_byte(byte) {
        Some(byte) => Some((place as u16, byte)),
        None => None,
    }
}

/// The byte that two hexadecimal digits spell.
fn read_byte(field: &[u8]) -> Option<u8>
    ensures { result ≡ byte_in field.now }
{
    let [high, low] = field else {
        return None;
    };
    match (hex_digit(*high), hex_digit(*low)) {
        (Some(high), Some(low)) => Some(16 * high + low),
        _ => None,
    }
}

/// The value of a hexadecimal digit, of either case.
fn hex_digit(digit: u8) -> Option<u8>
    ensures value { result ≡ hex_digit digit }
    ensures range { IfSome result (λ value. value < 16) }
{
    match char::from(digit).to_digit(16) {
        Some(value) => Some(value as u8),
        None => None,
    }
}
