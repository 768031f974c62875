//! Why a line of a script is refused.

use fisb_time::Moment;
use life_table::RowFault;

/// Why a line of a script is refused. The first four are looked at once, before any
/// line after the table.
#[derive(Clone, Copy, Debug, PartialEq, Eq)]
pub enum Reason {
    /// 65,541 bytes were read, and no line that begins at one of the bytes 0 to 65,536 is `---`.
    TableLong,
    /// The input ended with fewer bytes, and has no such line.
    NoTable,
    /// The bytes before `---` are no TOML document.
    NotToml,
    /// A row of the life table is at fault.
    BadRow {
        /// The row: 0 is the document itself, then the rows of texts, then those of radar.
        row: u32,
        /// The first fault of that row.
        reason: RowFault,
    },
    /// The line has more than 32,768 bytes.
    LineLong,
    /// The line is not of its form.
    Syntax,
    /// The command does not take this line.
    NotHere,
    /// The line names a 17th station.
    Station,
    /// The line's moment is below the greatest one of the lines acted on before it that concern the
    /// same station, or that concern the receiver, if it does.
    Clock {
        /// That greatest moment.
        kept: Moment,
    },
    /// No frame of this number was sent.
    NoFrame,
    /// The frame was sent later than it is heard.
    Early,
    /// The frame was sent longer ago than the table allows.
    Late,
    /// 65,536 frames were sent before.
    Frames,
    /// A character of the report has no code.
    BadCharacter {
        /// The least place of one, counted in characters from 0.
        place: u32,
    },
    /// The report has more than 16,384 characters.
    TextLong,
    /// The report has too few words for a key.
    FewWords,
    /// The table has no row for the report's type, or for the product of the radar.
    Unlisted,
    /// A block that no record names, or numbers of blocks that no update may have.
    BadBlock,
    /// The form of the update's row does not show its version.
    Coarse,
    /// The version is more than a minute ahead of the line.
    Ahead,
    /// The life of the version is over.
    Expired,
    /// A version that is not below this one was given for a key of the update.
    NotNewer {
        /// The greatest version given for the first such key.
        kept: Moment,
    },
    /// The text is sent in segments, and no file number is free.
    NoFile,
}
