//! Why a ground refuses a call.

use dlac_text::TextFault;
use fisb_time::Moment;
use thiserror::Error;

/// Why an update is refused.
#[derive(Clone, Copy, Debug, PartialEq, Eq, Error)]
pub enum GiveFault {
    /// The moment is below that of the last accepted call, which is `kept`.
    #[error("the moment is before the last one")]
    Clock { kept: Moment },
    /// The text cannot be sent: a character without a code, or too many characters.
    #[error("{0}")]
    BadText(TextFault),
    /// The text has fewer words than its key.
    #[error("the text has fewer words than its key")]
    FewWords,
    /// No row of the table has the type of the report, or the product of the blocks.
    #[error("the table has no row of this type or product")]
    Unlisted,
    /// A record cannot name the block, or the empty blocks: the scale, a number, or the list of numbers is out of range.
    #[error("no record can name the blocks")]
    BadBlock,
    /// The form of the row does not show the version.
    #[error("the form of this type does not show the version")]
    Coarse,
    /// The version is more than a minute ahead of the moment.
    #[error("the version is more than a minute ahead")]
    Ahead,
    /// The life of the version is over at the moment.
    #[error("the life of the version is over")]
    Expired,
    /// The key was given before with a version that is not below this one; `kept` is the greatest of them.
    #[error("a version that is not older was given before")]
    NotNewer { kept: Moment },
    /// The text is sent in segments, and each of the 1,024 file numbers is taken.
    #[error("no file number is free")]
    NoFile,
    /// Memory ran out.
    #[error("no memory is left")]
    NoMemory,
}

/// Why a frame is not filled.
#[derive(Clone, Copy, Debug, PartialEq, Eq, Error)]
pub enum FillFault {
    /// The moment is below that of the last accepted call, which is `kept`.
    #[error("the moment is before the last one")]
    Clock { kept: Moment },
}
