//! Laws of the definitions, for the crates above: each is the contract of a function that does nothing.
ghost use Rattle.apdu_core.specs.Laws.{ReadsBack, ShownFits, SpellingIsReading};

use fisb_time::laws::date_of_day;

/// The law that what is written of an APDU reads back as that APDU, with the size of what is written.
#[inline]
pub fn apdu_reads_back()
    ensures { ReadsBack }
{}

/// The law that a list of bytes is read as an APDU exactly where it spells that APDU.
#[inline]
pub fn spelling_is_reading()
    ensures { SpellingIsReading }
{}

/// The law that the fields of a moment fit their widths in each form.
#[inline]
pub fn shown_fits()
    ensures { ShownFits }
{
    date_of_day()
}
