//! The bytes of a script, from the lines that stand for them.
ghost use Rattle.std.specs.Prelude.{◌≡◌, ◌-◌, ◌++◌, IfOk, decimal, length, string_bytes, ◌∷◌, []};
ghost use Rattle.std.specs.List.{repeat};

use std::alloc::{AllocError, Global};

/// The bytes for which the lines of a case stand.
pub(crate) fn script_of(alloc: Global, lines: &str) -> Result<Vec<u8>, AllocError> {
    let mut script = Vec::new(alloc);
    for line in lines.split('\n') {
        let (count, line) = count_and_line(line);
        for index in 0..count {
            add_line(alloc, line, index, &mut script)?;
        }
    }
    Ok(script)
}

/// How often a line stands there, and the line.
fn count_and_line(line: &str) -> (u32, &str) {
    let Some(rest) = line.strip_prefix("{{") else {
        return (1, line);
    };
    let Some((count, repeated)) = rest.split_once(" lines}}") else {
        return (1, line);
    };
    match count.parse::<u32>() {
        Ok(count) => (count, repeated),
        Err(_) => (1, line),
    }
}

/// Adds a line with its newline, or without one where it says that nothing follows.
fn add_line(alloc: Global, line: &str, index: u32, script: &mut Vec<u8>) -> Result<(), AllocError> {
    match line.strip_suffix("{{end}}") {
        Some(last) => add_filled(alloc, last, index, script),
        None => {
            add_filled(alloc, line, index, script)?;
            script.push(b'\n')?;
            Ok(())
        }
    }
}

/// Adds a text, with what each pair of braces stands for in its place.
fn add_filled(
    alloc: Global,
    text: &str,
    index: u32,
    script: &mut Vec<u8>,
) -> Result<(), AllocError> {
    let (first, others) = text.split_once("{{").unwrap_or((text, ""));
    script.extend_from_slice(first.as_bytes())?;
    if first.len() == text.len() {
        return Ok(());
    }
    for piece in others.split("{{") {
        let (inside, rest) = piece.split_once("}}").unwrap_or((piece, ""));
        script.extend_from_slice(filling(alloc, inside, index)?.as_slice())?;
        script.extend_from_slice(rest.as_bytes())?;
    }
    Ok(())
}

/// What a pair of braces stands for: so many copies of a text, a byte, or a number that counts.
fn filling(alloc: Global, inside: &str, index: u32) -> Result<Vec<u8>, AllocError> {
    if let Some((text, count)) = inside.split_once('*') {
        let count = count.parse::<u32>().unwrap_or(0);
        return Ok(copies(alloc, text, count as usize)?.into_bytes());
    }
    if let Some(digits) = inside.strip_prefix('=') {
        let byte = u8::from_str_radix(digits, 16).unwrap_or(0);
        return Vec::from_slice(alloc, &[byte]);
    }
    let number = inside.parse::<u32>().unwrap_or(0).saturating_add(index);
    Ok(padded_number(alloc, number, inside.len())?.into_bytes())
}

/// So many copies of a text.
pub(crate) fn copies(alloc: Global, text: &str, count: usize) -> Result<String, AllocError>
    ensures { IfOk result (λ s. string_bytes s ≡ repeat count text.now) }
{
    text.repeat(alloc, count)
}

/// A number in decimal digits, with zeros before it up to a width.
pub(crate) fn padded_number(alloc: Global, number: u32, width: usize) -> Result<String, AllocError>
    ensures { IfOk result (λ s. string_bytes s
        ≡ repeat (width - length (decimal number)) (48 ∷ []) ++ decimal number) }
{
    let digits = number.to_string(alloc)?;
    let mut text = "0".repeat(alloc, width.saturating_sub(digits.len()))?;
    text.push_str(digits.as_str())?;
    Ok(text)
}
