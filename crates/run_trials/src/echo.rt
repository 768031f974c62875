//! A small command.
ghost use Rattle.std.specs.Prelude.{◌≡◌, IfOk};
ghost use Rattle.run_trials.specs.Echo.{echo_text, echo_work};

use fisb_wire::Bytes;
use refusal_core::{Reason, print_refused};
use run_core::{Actor, Given, Stop};
use std::alloc::{AllocError, Global};

/// What a line gave.
#[derive(Drop)]
pub struct Echoed {
    text: Bytes,
}

impl Given for Echoed {
    ghost text = { λ echoed. echoed.text };

    fn print(&self, alloc: Global) -> Result<Bytes, AllocError> {
        Ok(Bytes::of(Vec::from_slice(alloc, self.text.all())?))
    }
}

/// Gives back each line that begins with a plus sign, gives nothing for an empty line and for one
/// that begins with `#`, and refuses every other.
#[derive(Drop)]
pub struct Echo;

impl Actor for Echo {
    type Given = Echoed;

    ghost work = { echo_work };

    ghost stands = { λ table past echo. Unit {0} };

    fn new(_alloc: Global, _table: &[u8]) -> Result<Echo, Stop> {
        Ok(Echo)
    }

    fn act(&mut self, alloc: Global, line: &[u8]) -> Result<Echoed, Stop> {
        match echo_line(alloc, line)? {
            Some(text) => Ok(Echoed { text }),
            None => Err(Stop::Refused(Reason::Syntax)),
        }
    }

    fn refusal(alloc: Global, line: u64, reason: &Reason) -> Result<Bytes, AllocError> {
        print_refused(alloc, line, reason)
    }
}

// What a line gives, if it is not refused.
fn echo_line(alloc: Global, line: &[u8]) -> Result<Option<Bytes>, AllocError>
    ensures { IfOk result (λ text. text ≡ echo_text line.now) }
{
    let mut text = Vec::new(alloc);
    match line {
        [] | [b'#', ..] => {}
        [b'+', ..] => {
            text.extend_from_slice(line)?;
            text.push(b'\n')?;
        }
        _ => return Ok(None),
    }
    Ok(Some(Bytes::of(text)))
}
