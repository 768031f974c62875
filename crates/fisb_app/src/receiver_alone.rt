//! The command `receive`: a receiver alone, of frames from anywhere.
ghost use Rattle.std.specs.Prelude.{◌≡◌, ℕ, ◌∷◌, List};
ghost use Rattle.script_core.specs.Script.{Line as ScriptLine};
ghost use Rattle.fisb_app.specs.declared.party.Party.TheVariants.{Receive as TheReceive};
ghost use Rattle.fisb_app.specs.Stands.{EarHolds};

use crate::ear::Ear;
use crate::hearing::{receive, show};
use crate::in_order::LineActor;
use crate::outcome::{Event, Outcome};
use crate::party::Party;
use crate::sending::read_table;
use life_table::LifeTable;
use run_core::Stop;
use script_core::Line;
use std::alloc::Global;

/// What the lines acted on have made.
#[derive(Drop)]
pub(crate) struct ReceiverAlone<E: Ear> {
    /// The table of the script, of which the receiver has a copy.
    pub(crate) table: LifeTable,
    pub(crate) ear: E,
}

impl<E: Ear> LineActor for ReceiverAlone<E> {
    type Given = Outcome;

    ghost PARTY = { TheReceive };

    const PARTY: Party = Party::Receive;

    ghost table = { λ actor. actor.table };

    ghost holds = { EarHolds E.stands };

    ghost opened = { λ bytes acted actor h. h.opened };

    fn new(alloc: Global, bytes: &[u8]) -> Result<ReceiverAlone<E>, Stop> {
        let table = read_table(alloc, bytes)?;
        let Ok(copy) = table.copy(alloc) else {
            return Err(Stop::NoMemory);
        };
        Ok(ReceiverAlone {
            table,
            ear: E::new(alloc, copy),
        })
    }

    fn act_on(&mut self, alloc: Global, line: &Line) -> Result<Outcome, Stop> {
        match line {
            Line::Nothing
            | Line::Station(_)
            | Line::Text { .. }
            | Line::Radar { .. }
            | Line::Blank { .. }
            | Line::Turn { .. }
            | Line::Hear { .. } => Ok(Outcome::of(Event::Nothing)),
            Line::Rx { moment, air } => receive(&mut self.ear, *moment, air),
            Line::Show { moment } => show(alloc, &self.ear, *moment),
        }
    }
}
