//! What acts on the lines of a script.
ghost use Rattle.std.specs.Prelude.{◌≡◌, ℕ, ◌≤◌, List, ◌∷◌, [], length, IfOk, OnErr};
ghost use Rattle.run_core.specs.Limits.{line_limit};
ghost use Rattle.run_core.specs.Work.{Work};
ghost use Rattle.run_core.specs.Actor.{HasOpened, HasActed};

use crate::stop::Stop;
use fisb_wire::Bytes;
use refusal_core::Reason;
use std::alloc::{AllocError, Global};

/// What a line gave. Its text is made of it alone, so making the text changes no actor.
pub trait Given: Drop {
    // The text.
    ghost text: { Self → List ℕ };

    /// Makes the text.
    fn print(&self, alloc: Global) -> Result<Bytes, AllocError>
        ensures { IfOk result (λ bytes. bytes ≡ text self.now) };
}

/// A command: it is made from the bytes of a table, and then acts on one line after another.
pub trait Actor: Drop {
    /// What its lines give.
    type Given: Given;

    // What the command is.
    ghost work: { Work };

    // The actor was made from the bytes of this table, and acted on these lines, the newest first.
    ghost stands: { List ℕ → List (List ℕ) → Self → Type 0 };

    /// Reads the table, of which no bytes stand for the default one.
    fn new(alloc: Global, table: &[u8]) -> Result<Self, Stop>
        ensures { HasOpened (work.opened table.now) (stands table.now []) result };

    /// Acts on a line after the lines acted on, and answers what it gives.
    ///
    /// # Errors
    ///
    /// `Refused` with the first reason against the line, `NoMemory` where memory runs out. Either
    /// changes nothing that counts: the actor stands for the lines that it stood for.
    fn act(&mut self, alloc: Global, line: &[u8]) -> Result<Self::Given, Stop>
        requires { length line.now ≤ line_limit }
        ensures acted { (table : List ℕ) (past : List (List ℕ)) → stands table past self.old
            → HasActed Self.Given.text (work.told table past line.now)
            (stands table (line.now ∷ past) self.new) result }
        ensures same { (table : List ℕ) (past : List (List ℕ)) → stands table past self.old
            → OnErr result (stands table past self.new) };

    /// What is written where a line is refused.
    fn refusal(alloc: Global, line: u64, reason: &Reason) -> Result<Bytes, AllocError>
        ensures { IfOk result (λ text. text ≡ work.refusal line reason.now) };
}
