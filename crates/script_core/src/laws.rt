//! Laws of the definitions, for the crates above: each is the contract of a function that does nothing of its own.
ghost use Rattle.script_core.specs.Laws.{LinesHaveRanges};

use dlac_text::laws::shown_texts;

/// The law that what a line says is within its ranges.
#[inline]
pub fn ranges_of_lines()
    ensures { LinesHaveRanges }
{
    shown_texts()
}
