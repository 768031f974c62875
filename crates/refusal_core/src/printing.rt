//! The text of a refusal.
ghost use Rattle.std.specs.Prelude.{◌≡◌, IfOk, string_bytes};
ghost use Rattle.refusal_core.specs.Refusal.{refusal_text, row_word};

use crate::reason::Reason;
use fisb_wire::Bytes;
use life_table::RowFault;
use std::alloc::{AllocError, Global};

/// The refusal of a line: its number, from 1, and the first reason against it.
pub fn print_refused(alloc: Global, line: u64, reason: &Reason) -> Result<Bytes, AllocError>
    ensures { IfOk result (λ text. text ≡ refusal_text line reason.now) }
{
    let text = refusal_line(alloc, line, reason)?;
    Ok(Bytes::of(text.into_bytes()))
}

fn refusal_line(alloc: Global, line: u64, reason: &Reason) -> Result<String, AllocError>
    ensures { IfOk result (λ text. string_bytes text ≡ refusal_text line reason.now) }
{
    match reason {
        Reason::BadRow { row, reason } => {
            let why = row_word(*reason);
            format!(in alloc; "refused {line} row {row} {why}\n")
        }
        Reason::Clock { kept } => {
            let kept = kept.seconds();
            format!(in alloc; "refused {line} clock {kept}\n")
        }
        Reason::BadCharacter { place } => format!(in alloc; "refused {line} character {place}\n"),
        Reason::NotNewer { kept } => {
            let kept = kept.seconds();
            format!(in alloc; "refused {line} notnewer {kept}\n")
        }
        Reason::TableLong => format!(in alloc; "refused {line} tablelong\n"),
        Reason::NoTable => format!(in alloc; "refused {line} notable\n"),
        Reason::NotToml => format!(in alloc; "refused {line} toml\n"),
        Reason::LineLong => format!(in alloc; "refused {line} linelong\n"),
        Reason::Syntax => format!(in alloc; "refused {line} syntax\n"),
        Reason::NotHere => format!(in alloc; "refused {line} nothere\n"),
        Reason::Station => format!(in alloc; "refused {line} station\n"),
        Reason::NoFrame => format!(in alloc; "refused {line} noframe\n"),
        Reason::Early => format!(in alloc; "refused {line} early\n"),
        Reason::Late => format!(in alloc; "refused {line} late\n"),
        Reason::Frames => format!(in alloc; "refused {line} frames\n"),
        Reason::TextLong => format!(in alloc; "refused {line} textlong\n"),
        Reason::FewWords => format!(in alloc; "refused {line} words\n"),
        Reason::Unlisted => format!(in alloc; "refused {line} unlisted\n"),
        Reason::BadBlock => format!(in alloc; "refused {line} block\n"),
        Reason::Coarse => format!(in alloc; "refused {line} coarse\n"),
        Reason::Ahead => format!(in alloc; "refused {line} ahead\n"),
        Reason::Expired => format!(in alloc; "refused {line} expired\n"),
        Reason::NoFile => format!(in alloc; "refused {line} nofile\n"),
    }
}

fn row_word(reason: RowFault) -> &'static str
    ensures { result.now ≡ row_word reason }
{
    match reason {
        RowFault::Shape => "shape",
        RowFault::Version => "version",
        RowFault::Late => "late",
        RowFault::Rows => "rows",
        RowFault::Word => "word",
        RowFault::Twice => "twice",
        RowFault::As => "as",
        RowFault::Words => "words",
        RowFault::Form => "form",
        RowFault::Life => "life",
        RowFault::Product => "product",
    }
}
