//! What the commands have in common: lines are acted on in their order.
ghost use Rattle.std.specs.Prelude.{◌≡◌, ℕ, ◌∷◌, List, [], Option, None, Some, Ok, Result, IfOk};
ghost use Rattle.std.specs.Prelude.{OnErr};
ghost use Rattle.std.specs.Option.{option_or};
ghost use Rattle.life_table.specs.LifeTable.{LifeTable as Table};
ghost use Rattle.run_core.specs.Actor.{HasOpened};
ghost use Rattle.script_core.specs.LineView.{line_view, HasRanges};
ghost use Rattle.script_core.specs.Script.{Line as ScriptLine};
ghost use Rattle.fisb_app.specs.Output.{given_text, heard_picture};
ghost use Rattle.fisb_app.specs.declared.party.Party.{Party as AnyParty};
ghost use Rattle.fisb_app.specs.Past.{receiver_moment};
ghost use Rattle.fisb_app.specs.Reading.{earlier_than, front_refusal, own_refusal, party_refusal};
ghost use Rattle.fisb_app.specs.Stands.{HasTried, IsInOrder};
ghost use Rattle.fisb_app.specs.Work.{opened_with, opening_table, refusal_written, work_of};

use crate::line_kinds::{receiver_moment, takes};
use crate::outcome::no_text;
use crate::party::Party;
use fisb_time::Moment;
use fisb_wire::Bytes;
use run_core::{Actor, Given, Stop};
use script_core::{Line, LineFault, Reason, print_refused, read_line};
use std::alloc::{AllocError, Global};

/// What a command does with lines against which nothing but their content can stand.
pub(crate) trait LineActor: Drop {
    /// What its lines give.
    type Given: Given;

    // The command.
    ghost PARTY: { AnyParty };

    const PARTY: Party;

    // The table under which lines are acted on.
    ghost table: { Self → Table };

    // It was made from the bytes of this table, and acted on these lines, the newest first.
    ghost holds: { List ℕ → List ScriptLine → Self → Type 0 };

    // Its table is that of the bytes.
    ghost opened: { (bytes : List ℕ) (acted : List ScriptLine) (actor : Self)
        → holds bytes acted actor → opening_table bytes ≡ Ok (table actor) };

    /// Reads the table, of which no bytes stand for the default one.
    fn new(alloc: Global, bytes: &[u8]) -> Result<Self, Stop>
        ensures { HasOpened (opened_with (opening_table bytes.now)) (holds bytes.now []) result };

    /// Acts on a line of the command, and answers what it gives.
    fn act_on(&mut self, alloc: Global, line: &Line) -> Result<Self::Given, Stop>
        requires { HasRanges 32768 (line_view line.now) }
        ensures acted { (bytes : List ℕ) (acted : List ScriptLine)
            → party_refusal PARTY (line_view line.now) ≡ None
            → holds bytes acted self.old
            → HasTried (own_refusal PARTY (table self.old) acted (line_view line.now))
            (λ given. (Self.Given.text given ≡ given_text PARTY heard_picture (table self.old)
            acted (line_view line.now))
            × holds bytes (line_view line.now ∷ acted) self.new) result }
        ensures same { (bytes : List ℕ) (acted : List ScriptLine)
            → holds bytes acted self.old → OnErr result (holds bytes acted self.new) };
}

/// A command that acts on lines in their order.
#[derive(Drop)]
pub(crate) struct InOrder<P: LineActor> {
    pub(crate) inner: P,
    /// The last moment of a line that concerns the receiver. Each ground has a clock of its own.
    pub(crate) clock: Option<Moment>,
}

impl<P: LineActor> Actor for InOrder<P> {
    type Given = P::Given;

    ghost work = { work_of P.PARTY heard_picture };

    ghost stands = { IsInOrder P.holds };

    fn new(alloc: Global, table: &[u8]) -> Result<InOrder<P>, Stop> {
        let inner: P = P::new(alloc, table)?;
        Ok(InOrder { inner, clock: None })
    }

    fn act(&mut self, alloc: Global, line: &[u8]) -> Result<P::Given, Stop> {
        let line = match read_line(alloc, line) {
            Ok(line) => line,
            Err(LineFault::Syntax) => return Err(Stop::Refused(Reason::Syntax)),
            Err(LineFault::NoMemory) => return Err(Stop::NoMemory),
        };
        if let Some(reason) = self.front_refusal(&line) {
            return Err(Stop::Refused(reason));
        }
        match self.inner.act_on(alloc, &line) {
            Ok(given) => {
                self.advance(&line);
                Ok(given)
            }
            Err(stop) => Err(stop),
        }
    }

    fn refusal(alloc: Global, line: u64, reason: &Reason) -> Result<Bytes, AllocError> {
        print_refusal(alloc, P::PARTY, line, reason)
    }
}

impl<P: LineActor> InOrder<P> {
    /// The first reason against a line that looks neither at its content nor at its station.
    fn front_refusal(&self, line: &Line) -> Option<Reason>
        ensures { result ≡ front_refusal P.PARTY self.now.clock (line_view line.now) }
    {
        if !takes(P::PARTY, line) {
            return Some(Reason::NotHere);
        }
        match earlier_than(receiver_moment(line), self.clock) {
            Some(kept) => Some(Reason::Clock { kept }),
            None => None,
        }
    }

    /// Sets the clock of the receiver, once a line was acted on.
    fn advance(&mut self, line: &Line)
        ensures clock { self.new.clock
            ≡ option_or (receiver_moment (line_view line.now)) self.old.clock }
        ensures inner { self.new.inner ≡ self.old.inner }
    {
        if let Some(moment) = receiver_moment(line) {
            self.clock = Some(moment);
        }
    }
}

/// What a command writes of a line that it refuses.
fn print_refusal(
    alloc: Global,
    party: Party,
    line: u64,
    reason: &Reason,
) -> Result<Bytes, AllocError>
    ensures { IfOk result (λ text. text ≡ refusal_written party line reason.now) }
{
    match party {
        Party::Gdl => Ok(no_text(alloc)),
        Party::Link | Party::Ground | Party::Receive => print_refused(alloc, line, reason),
    }
}

/// The last moment, where a line's own is below it.
fn earlier_than(own: Option<Moment>, last: Option<Moment>) -> Option<Moment>
    ensures { result ≡ earlier_than own last }
{
    let Some(moment) = own else {
        return None;
    };
    match last {
        Some(kept) if moment < kept => Some(kept),
        _ => None,
    }
}
