//! How a run ended.
ghost use Rattle.std.specs.Prelude.{◌≡◌};
ghost use Rattle.run_core.specs.Status.{code_of};

use refusal_core::Reason;

/// How a run ended.
#[derive(Clone, Copy, Debug, PartialEq, Eq)]
pub enum Status {
    /// The input was read to its end, and every line was acted on.
    Done,
    /// The words are none of the commands.
    Usage,
    /// A line was refused, and nothing after it was acted on.
    Refused {
        /// The line's number, from 1.
        line: u64,
        /// The first reason against it.
        reason: Reason,
    },
    /// A read failed. The lines that were wholly read before were acted on.
    ReadFault,
    /// A write failed.
    WriteFault,
    /// The input has more than 67,108,864 bytes. The lines that end within them were acted on.
    TooLong,
    /// Memory was not found.
    NoMemory,
}

impl Status {
    /// The number with which a program ends: 0 for `Done`, and 2 to 7 for the others in order.
    pub fn code(&self) -> u8
        ensures { result ≡ code_of self.now }
    {
        match self {
            Status::Done => 0,
            Status::Usage => 2,
            Status::Refused { .. } => 3,
            Status::ReadFault => 4,
            Status::WriteFault => 5,
            Status::TooLong => 6,
            Status::NoMemory => 7,
        }
    }
}
