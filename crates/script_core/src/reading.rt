//! Reads one line of a script.
ghost use Rattle.std.specs.Prelude.{◌≡◌, ℕ, ◌≤◌, IfOk, IfSome, IsTrue, None, Some, length};
ghost use Rattle.std.specs.Prelude.{option_copied, option_map};
ghost use Rattle.std.specs.String.{string_bytes};
ghost use Rattle.script_core.specs.Fields.{fields, fields_left, line_of, text_line, report_in};
ghost use Rattle.script_core.specs.Fields.{other_line, takes_memory};
ghost use Rattle.script_core.specs.LineView.{line_view, HasRanges};

use crate::fields::{is_word, next_field, read_moment};
use crate::hearing::{read_hear, read_rx};
use crate::kinds::{read_show, read_station, read_turn};
use crate::radar::{read_blank, read_radar};
use crate::script_line::{Line, LineFault};
use dlac_text::laws::shown_texts;
use dlac_text::unplain;
use std::alloc::Global;

/// The line that some bytes without a newline are.
///
/// # Errors
///
/// `Syntax` where the bytes are of no line's form; `NoMemory` where memory runs out, which only the report of a
/// `text` line, the numbers of a `blank` line and the wrong bytes of a `hear` line take.
pub fn read_line(alloc: Global, line: &[u8]) -> Result<Line, LineFault>
    ensures line { IfOk result (λ read. line_of line.now ≡ Some (line_view read)) }
    ensures syntax { result ≡ Err LineFault.Syntax → line_of line.now ≡ None }
    ensures no_memory { result ≡ Err LineFault.NoMemory → IsTrue (takes_memory (fields line.now)) }
    ensures ranges { IfOk result (λ read. HasRanges (length line.now) (line_view read)) }
{
    shown_texts();
    read_form(alloc, line)
}

/// The same, without the ranges of what the line says.
fn read_form(alloc: Global, line: &[u8]) -> Result<Line, LineFault>
    ensures line { IfOk result (λ read. line_of line.now ≡ Some (line_view read)) }
    ensures syntax { result ≡ Err LineFault.Syntax → line_of line.now ≡ None }
    ensures no_memory { result ≡ Err LineFault.NoMemory → IsTrue (takes_memory (fields line.now)) }
{
    if line.is_empty() {
        return Ok(Line::Nothing);
    }
    let Some((word, rest)) = next_field(Some(line)) else {
        return Err(LineFault::Syntax);
    };
    if is_word(word, "text") {
        return read_text(alloc, rest);
    }
    if is_word(word, "blank") {
        return read_blank(alloc, rest);
    }
    if is_word(word, "hear") {
        return read_hear(alloc, rest);
    }
    match read_other(word, rest) {
        Some(read) => Ok(read),
        None => Err(LineFault::Syntax),
    }
}

/// `text MOMENT VERSION REPORT`
fn read_text(alloc: Global, rest: Option<&[u8]>) -> Result<Line, LineFault>
    ensures line { IfOk result (λ read.
        text_line (fields_left (option_copied rest.entry)) ≡ Some (line_view read)) }
    ensures syntax { result ≡ Err LineFault.Syntax →
        text_line (fields_left (option_copied rest.entry)) ≡ None }
{
    let Some((moment, rest)) = next_field(rest) else {
        return Err(LineFault::Syntax);
    };
    let Some((version, rest)) = next_field(rest) else {
        return Err(LineFault::Syntax);
    };
    let Some(report) = rest else {
        return Err(LineFault::Syntax);
    };
    let Some(moment) = read_moment(moment) else {
        return Err(LineFault::Syntax);
    };
    let Some(version) = read_moment(version) else {
        return Err(LineFault::Syntax);
    };
    match read_report(alloc, report) {
        Ok(report) => Ok(Line::Text {
            moment,
            version,
            report,
        }),
        Err(fault) => Err(fault),
    }
}

/// The text that a REPORT shows.
fn read_report(alloc: Global, bytes: &[u8]) -> Result<String, LineFault>
    ensures report { IfOk result (λ report. report_in bytes.now ≡ Some (string_bytes report)) }
    ensures syntax { result ≡ Err LineFault.Syntax → report_in bytes.now ≡ None }
{
    let Ok(shown) = str::from_utf8(bytes) else {
        return Err(LineFault::Syntax);
    };
    match unplain(alloc, shown) {
        Ok(Some(report)) => Ok(report),
        Ok(None) => Err(LineFault::Syntax),
        Err(_) => Err(LineFault::NoMemory),
    }
}

/// A line of another word than `text`, `blank` and `hear`.
fn read_other(word: &[u8], rest: Option<&[u8]>) -> Option<Line>
    ensures { option_map line_view result
        ≡ other_line word.now (fields_left (option_copied rest.entry)) }
{
    if is_word(word, "station") {
        read_station(rest)
    } else if is_word(word, "radar") {
        read_radar(rest)
    } else if is_word(word, "turn") {
        read_turn(rest)
    } else if is_word(word, "rx") {
        read_rx(rest)
    } else if is_word(word, "show") {
        read_show(rest)
    } else {
        None
    }
}
