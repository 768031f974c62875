//! Keys of which a second one can be made.
ghost use Rattle.std.specs.Prelude.{◌≡◌, IfOk};

use std::alloc::{AllocError, Global};

/// A key of which a second one can be made, for as long as there is memory.
pub trait Duplicate: Ord + Drop {
    /// The same key again.
    ///
    /// # Errors
    ///
    /// Where memory runs out.
    fn duplicate(&self, alloc: Global) -> Result<Self, AllocError>
        ensures { IfOk result (λ copy. copy ≡ self.now) };
}
