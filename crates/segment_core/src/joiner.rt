//! Joins segments as they arrive, and forgets what is stale.
ghost use Rattle.std.specs.Prelude.{◌≡◌, ◌≤◌, length, IfOk, IsSome, List, None, OnErr, OnOk, Some};
ghost use Rattle.std.specs.Prelude.{[]};
ghost use Rattle.std.specs.Prelude.{true, false};
ghost use Rattle.segment_core.specs.Arrival.{Arrival};
ghost use Rattle.segment_core.specs.Bound.{IsPurged};
ghost use Rattle.segment_core.specs.Store.{FitsFile, IsNotBefore, StandsFor, answer_of};
ghost use Rattle.life_table.specs.Products.{is_read_product};
ghost use Rattle.segment_core.specs.Store.{live_pieces, taken_with};
ghost use Rattle.segment_core.specs.Views.{arrival_view};
ghost use Rattle.segment_core.specs.declared.arrived.Taken.TheVariants as answers;

use crate::arrived::{Arrived, Longest, Taken};
use crate::held::{drop_stale, is_in_life, take_live};
use crate::piece_name::PieceName;
use fisb_time::Moment;
use fisb_wire::Bytes;
use std::alloc::{AllocError, Global};
use std::marker::Model;
use undo_map::laws::queues_stay;
use undo_map::{EndQueue, UndoMap};
use uplink_frame::laws::stations_are_told;

/// Joins the segments of files as they arrive. Of each file that is not stale it keeps the first
/// piece of each number, and the numbers alone once the file was whole.
#[derive(Drop)]
pub struct Joiner {
    alloc: Global,
    longest: Longest,
    clock: Option<Moment>,
    marked_clock: Option<Moment>,
    pieces: UndoMap<PieceName, Option<Bytes>>,
    /// Each name that is held, now or at the mark, stands here by the second from which on its file
    /// is stale, and no more; so a purge finds what is stale and looks at nothing else.
    ends: EndQueue<PieceName>,
}

impl Model for Joiner {
    ghost use Rattle.std.specs.Option.{option_map};
    ghost use Rattle.segment_core.specs.Store.{MarkedStore};

    ghost Value = { MarkedStore };

    ghost view = { λ j. record {
      store = record { longest = j.longest; clock = j.clock; pieces = j.pieces.entries };
      mark = option_map (λ pieces. record {
        longest = j.longest;
        clock = j.marked_clock;
        pieces = pieces;
      }) j.pieces.mark;
    } };

    ghost use Rattle.segment_core.specs.Ends.{IsQueueOfPieces};

    ghost invariant = { λ j. IsQueueOfPieces j.longest j.ends j.pieces };
}

impl Joiner {
    /// A joiner that has taken nothing, for products of these longest lives.
    pub fn new(alloc: Global, longest: Longest) -> Joiner
        ensures empty { result ≡ record {
          store = record { longest = longest; clock = None; pieces = [] };
          mark = None;
        } }
        ensures stands { StandsFor result.store [] }
    {
        Joiner {
            alloc,
            longest,
            clock: None,
            marked_clock: None,
            pieces: UndoMap::new(alloc),
            ends: EndQueue::new(alloc),
        }
    }

    /// The moment of the last call that took or purged, if there was one.
    pub fn clock(&self) -> Option<Moment>
        ensures { result ≡ self.now.store.clock }
    {
        self.clock
    }

    /// How many places the names that are held have in the queue by which a purge finds what is
    /// stale.
    pub fn places(&self) -> usize
        ensures { result ≤ length self.now.store.pieces }
    {
        self.ends.len()
    }

    /// Takes an arrival, and answers what it brings.
    ///
    /// # Errors
    ///
    /// Where memory runs out; then all is as it was.
    pub fn take(&mut self, moment: Moment, arrived: &Arrived<'_>) -> Result<Taken, AllocError>
        requires product { is_read_product arrived.now.product ≡ true }
        requires segment { FitsFile arrived.now.seg }
        requires moment { IsNotBefore self.old.store.clock moment }
        ensures answer { (taken : List Arrival) → StandsFor self.old.store taken
            → IfOk result (λ answer. answer
            ≡ answer_of self.old.store.longest moment taken (arrival_view arrived.now)) }
        ensures stands { (taken : List Arrival) → StandsFor self.old.store taken
            → OnOk result (StandsFor self.new.store
            (taken_with self.old.store.longest moment taken (arrival_view arrived.now))) }
        ensures clock { OnOk result (self.new.store.clock ≡ Some moment) }
        ensures longest { self.new.store.longest ≡ self.old.store.longest }
        ensures mark { self.new.mark ≡ self.old.mark }
        ensures err { OnErr result (self.new ≡ self.old) }
    {
        if !is_in_life(&self.longest, moment, arrived.product, arrived.version) {
            self.clock = Some(moment);
            return Ok(Taken::Stale);
        }
        stations_are_told();
        queues_stay::<PieceName, Option<Bytes>>();
        let taken = take_live(
            self.alloc,
            &self.longest,
            &mut self.pieces,
            &mut self.ends,
            arrived,
        )?;
        self.clock = Some(moment);
        Ok(taken)
    }

    /// Takes an arrival that is no segment, of which nothing is to be held: answers whether it is
    /// not stale. Then it brings its own payload.
    pub fn take_whole(&mut self, moment: Moment, arrived: &Arrived<'_>) -> bool
        requires alone { arrived.now.seg ≡ None }
        requires moment { IsNotBefore self.old.store.clock moment }
        ensures whole { result ≡ true → (taken : List Arrival)
            → answers.Whole arrived.now.payload.now
            ≡ answer_of self.old.store.longest moment taken (arrival_view arrived.now) }
        ensures stale { result ≡ false → (taken : List Arrival)
            → answers.Stale
            ≡ answer_of self.old.store.longest moment taken (arrival_view arrived.now) }
        ensures stands { (taken : List Arrival) → StandsFor self.old.store taken
            → StandsFor self.new.store
            (taken_with self.old.store.longest moment taken (arrival_view arrived.now)) }
        ensures clock { self.new.store.clock ≡ Some moment }
        ensures longest { self.new.store.longest ≡ self.old.store.longest }
        ensures mark { self.new.mark ≡ self.old.mark }
    {
        stations_are_told();
        self.clock = Some(moment);
        is_in_life(&self.longest, moment, arrived.product, arrived.version)
    }

    /// Forgets the files whose product's longest life has passed since their version.
    pub fn purge(&mut self, moment: Moment)
        requires moment { IsNotBefore self.old.store.clock moment }
        requires unmarked { self.old.mark ≡ None }
        ensures pieces { self.new.store.pieces
            ≡ live_pieces self.old.store.longest moment self.old.store.pieces }
        ensures clock { self.new.store.clock ≡ Some moment }
        ensures longest { self.new.store.longest ≡ self.old.store.longest }
        ensures mark { self.new.mark ≡ None }
        ensures purged { IsPurged self.new.store moment }
        ensures stands { (taken : List Arrival) → StandsFor self.old.store taken
            → StandsFor self.new.store taken }
    {
        stations_are_told();
        queues_stay::<PieceName, Option<Bytes>>();
        self.ends.settle();
        drop_stale(&mut self.pieces, &mut self.ends, &self.longest, moment);
        self.clock = Some(moment);
    }

    /// Sets a mark at what is held and at the clock, as they are.
    pub fn mark(&mut self)
        requires { self.old.mark ≡ None }
        ensures { self.new ≡ record self.old { mark = Some self.old.store } }
    {
        queues_stay::<PieceName, Option<Bytes>>();
        self.ends.settle();
        self.pieces.mark();
        self.marked_clock = self.clock;
    }

    /// Takes what is held and the clock back to the mark, which goes.
    pub fn undo(&mut self)
        requires { IsSome self.old.mark }
        ensures store { self.old.mark ≡ Some self.new.store }
        ensures mark { self.new.mark ≡ None }
    {
        queues_stay::<PieceName, Option<Bytes>>();
        self.pieces.undo();
        self.ends.undo();
        self.clock = self.marked_clock;
    }

    /// Lets the mark go and keeps what is held.
    pub fn settle(&mut self)
        requires { IsSome self.old.mark }
        ensures { self.new ≡ record self.old { mark = None } }
    {
        queues_stay::<PieceName, Option<Bytes>>();
        self.pieces.settle();
    }
}
