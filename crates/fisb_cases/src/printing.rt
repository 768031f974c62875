//! What is printed of a case: its output, which is shortened where it is long, and its status.
ghost use Rattle.std.specs.Prelude.{◌≡◌, ◌+◌, ◌*◌, ◌%◌, ◌^◌, ◌∷◌, [], ◌++◌, IfOk, codes, decimal};
ghost use Rattle.std.specs.Prelude.{fold, string_bytes};
ghost use Rattle.run_core.specs.Status.{code_of};

use fisb_app::Status;
use std::alloc::{AllocError, Global};

/// The most lines of an output that is printed whole.
const WHOLE: usize = 80;

/// How many lines are printed at either end of a longer one.
const SHOWN: usize = 8;

/// The least number of equal letters in a row that are printed as one and their count.
const RUN: usize = 24;

/// Adds an output. Of a long one the middle is left out, and a checksum of the whole stands there.
pub(crate) fn add_output(
    alloc: Global,
    output: &[u8],
    printed: &mut Vec<u8>,
) -> Result<(), AllocError> {
    let count = output.iter().filter(|byte| **byte == b'\n').count();
    for (place, line) in output.split(|byte| *byte == b'\n').enumerate() {
        if count <= WHOLE || place < SHOWN || place >= count - SHOWN {
            if place < count || !line.is_empty() {
                add_squeezed(alloc, line, printed)?;
                printed.push(b'\n')?;
            }
        } else if place == SHOWN {
            let left_out = count - SHOWN - SHOWN;
            let sum = checksum(output);
            let line = format!(in alloc;
                ".. {left_out} lines; the whole has the checksum {sum}\n"
            )?;
            printed.extend_from_slice(line.as_bytes())?;
        }
    }
    Ok(())
}

/// Adds a line, with each long row of one letter as the letter and its count.
fn add_squeezed(alloc: Global, line: &[u8], printed: &mut Vec<u8>) -> Result<(), AllocError> {
    for run in line.chunk_by(|one, next| one == next) {
        match run {
            [letter, ..] if run.len() >= RUN => {
                let short = short_run(alloc, *letter, run.len())?;
                printed.extend_from_slice(short.as_slice())?;
            }
            _ => printed.extend_from_slice(run)?,
        }
    }
    Ok(())
}

/// A letter and how often it stands in a row, as a case writes it.
fn short_run(alloc: Global, letter: u8, count: usize) -> Result<Vec<u8>, AllocError>
    ensures { IfOk result (λ v. v.items
        ≡ codes "{{" ++ (letter ∷ codes "*") ++ decimal count ++ codes "}}") }
{
    let mut text = Vec::from_slice(alloc, &[b'{', b'{', letter, b'*'])?;
    text.extend_from_slice(count.to_string(alloc)?.as_bytes())?;
    text.extend_from_slice(b"}}")?;
    Ok(text)
}

/// The line of a status, and the empty line after a case.
pub(crate) fn status_line(alloc: Global, status: &Status) -> Result<String, AllocError>
    ensures { IfOk result (λ s. string_bytes s
        ≡ codes "status " ++ decimal (code_of status.now) ++ codes "\n\n") }
{
    let code = status.code();
    format!(in alloc; "status {code}\n\n")
}

/// A number that depends on each of these bytes.
fn checksum(bytes: &[u8]) -> u32
    ensures { result ≡ fold (λ sum byte. (sum * 31 % 2 ^ 32 + byte) % 2 ^ 32) 0 bytes.now }
{
    bytes.iter().fold(
        0u32,
        |sum, byte| sum.wrapping_mul(31).wrapping_add(u32::from(*byte)),
    )
}
