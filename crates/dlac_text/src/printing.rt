//! A report on one line, in a form that can be read back.
ghost use Rattle.std.specs.Prelude.{◌≡◌, ◌<◌, [], ◌∷◌, ◌++◌, length, IfOk, IfSome, MatchOption};
ghost use Rattle.std.specs.Prelude.{None, option_map};
ghost use Rattle.std.specs.String.{string_bytes};
ghost use Rattle.std.specs.List.{list_all};
ghost use Rattle.dlac_text.specs.Plain.{is_itself, plain_character, plain_text, text_of_plain};
ghost use Rattle.dlac_text.specs.Plain.{prefixed_text};

use crate::report_text::Report;
use std::alloc::{AllocError, Global};

/// A report as one line of plain text: newline as `\n`, U+001A as `\z`, any other character as itself.
pub fn plain(alloc: Global, report: &Report) -> Result<String, AllocError>
    ensures { IfOk result (λ text. string_bytes text ≡ plain_text report.now) }
{
    if is_itself(report.all().as_bytes()) {
        return String::from_str(alloc, report.all());
    }
    plain_by_characters(alloc, report)
}

/// Whether each of these characters is shown as itself.
fn is_itself(characters: &[u8]) -> bool
    ensures { result ≡ list_all is_itself characters.now }
{
    characters
        .iter()
        .all(|character| *character != b'\n' && *character != 0x1A)
}

/// The same, one character after another.
fn plain_by_characters(alloc: Global, report: &Report) -> Result<String, AllocError>
    ensures { IfOk result (λ text. string_bytes text ≡ plain_text report.now) }
{
    let characters = report.all().as_bytes();
    let mut text = String::with_capacity(alloc, characters.len())?;
    for character in characters {
        push_plain(&mut text, *character)?;
    }
    Ok(text)
}

/// Puts what shows an ASCII character at the end.
fn push_plain(text: &mut String, character: u8) -> Result<(), AllocError>
    requires { character < 128 }
    ensures { IfOk result
        (λ _. string_bytes text.new ≡ string_bytes text.old ++ plain_character character) }
{
    match character {
        b'\n' => text.push_str("\\n"),
        0x1A => text.push_str("\\z"),
        _ => text.push(char::from(character)),
    }
}

/// The text that a plain text shows, or `None` exactly where a backslash isn't followed by `n` or `z`.
pub fn unplain(alloc: Global, text: &str) -> Result<Option<String>, AllocError>
    ensures { IfOk result (λ shown. option_map string_bytes shown ≡ text_of_plain text.now) }
{
    let mut shown = String::new(alloc);
    let mut rest = text;
    while let Some((before, after)) = rest.split_once('\\') {
        shown.push_str(before)?;
        let Some((character, more)) = read_escape(after) else {
            return Ok(None);
        };
        shown.push(character)?;
        rest = more;
    }
    shown.push_str(rest)?;
    Ok(Some(shown))
}

/// What the text after a backslash begins with, and what follows that.
fn read_escape(after: &str) -> Option<(char, &str)>
    ensures shown { MatchOption result
        (text_of_plain (92 ∷ after.now) ≡ None)
        (λ x. text_of_plain (92 ∷ after.now) ≡ prefixed_text (x.0 ∷ []) (text_of_plain x.1.now)) }
    ensures ascii { IfSome result (λ x. x.0 < 128) }
    ensures shorter { IfSome result (λ x. length x.1.now < length after.now) }
{
    if let Some(more) = after.strip_prefix('n') {
        return Some(('\n', more));
    }
    if let Some(more) = after.strip_prefix('z') {
        return Some(('\u{1A}', more));
    }
    None
}
