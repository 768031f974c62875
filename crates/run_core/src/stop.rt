//! Why an actor does not act.
ghost use Rattle.std.specs.Prelude.{◌≡◌};
ghost use Rattle.run_core.specs.declared.stop.Stop.TheVariants.{NoMemory};

use refusal_core::Reason;
use std::alloc::AllocError;

/// Why a table does not open a run, or a line is not acted on.
#[derive(Clone, Copy, Debug, PartialEq, Eq)]
pub enum Stop {
    /// There is a reason against it.
    Refused(Reason),
    /// Memory was not found.
    NoMemory,
}

impl From<AllocError> for Stop {
    ghost from_gives = { λ _ e. e ≡ NoMemory };

    fn from(_: AllocError) -> Stop {
        Stop::NoMemory
    }
}
