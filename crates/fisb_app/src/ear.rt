//! What hears frames for a command.
ghost use Rattle.std.specs.Prelude.{ℕ, [], List};
ghost use Rattle.uplink_weave.specs.Functions.{counts_in, payload_in};
ghost use Rattle.life_table.specs.LifeTable.{LifeTable as Table};
ghost use Rattle.receiver_core.specs.Hearing.{refusal_of_air};
ghost use Rattle.receiver_core.specs.Reception.{Reception};
ghost use Rattle.receiver_core.specs.StandsFor.{StandsFor};
ghost use Rattle.receiver_core.specs.Answers.{HasHeard, HasShown};

use fisb_time::Moment;
use life_table::LifeTable;
use picture_core::Entries;
use receiver_core::{HearFault, Heard, Receiver, ShowFault};
use std::alloc::Global;
use uplink_weave::FRAME_BYTES;

/// A receiver: it hears frames and shows pictures.
pub trait Ear: Drop {
    // The receiver stands for these receptions, the newest first.
    ghost stands: { Table → List Reception → Self → Type 0 };

    /// A receiver that has heard nothing.
    fn new(alloc: Global, table: LifeTable) -> Self
        ensures { stands table [] result };

    /// Hears a frame.
    fn hear(&mut self, moment: Moment, air: &[u8; FRAME_BYTES]) -> Result<Heard, HearFault>
        ensures { (table : Table) (past : List Reception) → stands table past self.old
            → HasHeard (λ heard. stands table heard self.new) table past
            (refusal_of_air past moment air.now) moment (payload_in air.now) (counts_in air.now)
            result };

    /// The picture at a moment, in the order of its keys.
    fn picture(&self, alloc: Global, moment: Moment) -> Result<Entries, ShowFault>
        ensures { (table : Table) (past : List Reception) → stands table past self.now
            → HasShown table past moment result };
}

impl Ear for Receiver {
    ghost stands = { λ table past receiver. StandsFor table receiver past };

    fn new(alloc: Global, table: LifeTable) -> Receiver {
        Receiver::new(alloc, table)
    }

    fn hear(&mut self, moment: Moment, air: &[u8; FRAME_BYTES]) -> Result<Heard, HearFault> {
        Receiver::hear(self, moment, air)
    }

    fn picture(&self, alloc: Global, moment: Moment) -> Result<Entries, ShowFault> {
        Receiver::picture(self, alloc, moment)
    }
}
