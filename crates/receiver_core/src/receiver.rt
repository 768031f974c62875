//! The receiver and its calls.
ghost use Rattle.std.specs.Prelude.{◌≡◌, ℕ, List, [], None, Some, IsSome, OnErr, OnOk};
ghost use Rattle.std.specs.Prelude.{replicate};
ghost use Rattle.uplink_weave.specs.Functions.{counts_in, payload_in};
ghost use Rattle.life_table.specs.LifeTable.{LifeTable};
ghost use Rattle.life_table.specs.Rules.{IsTable};
ghost use Rattle.segment_core.specs.Arrival.{Arrival};
ghost use Rattle.segment_core.specs.Bound.{IsPurged};
ghost use Rattle.segment_core.specs.Store.{IsNotBefore, StandsFor as StandsForArrivals, last_above};
ghost use Rattle.picture_core.specs.Kept.{live_entries};
ghost use Rattle.receiver_core.specs.Answers.{HasHeard, HasShown};
ghost use Rattle.receiver_core.specs.Bound.{IsBounded};
ghost use Rattle.receiver_core.specs.Hearing.{payload_refusal};
ghost use Rattle.receiver_core.specs.Hearing.{refusal_of_air, refusal_of_payload};
ghost use Rattle.receiver_core.specs.Reception.{Reception};
ghost use Rattle.receiver_core.specs.StandsFor.{StandsFor, longest_lives};

use crate::heard::{HearFault, Heard, ShowFault};
use crate::hearing::take_frames;
use crate::laws::{forgets_once, keeps_nothing, keeps_reception, receivers_are_bounded};
use crate::unread::UnreadList;
use fisb_time::Moment;
use life_table::{CONUS_RADAR, LifeTable, REGIONAL_RADAR, TEXT_PRODUCT};
use picture_core::{Entries, Picture};
use segment_core::{Joiner, Longest};
use std::alloc::Global;
use std::marker::Model;
use uplink_frame::{PAYLOAD_LENGTH, read_header};
use uplink_weave::laws::functions_of_a_frame;
use uplink_weave::{FRAME_BYTES, unweave};

/// A receiver: it joins the segments that it hears by their stations, and keeps of each key the
/// newest version that has not ended. After each frame it holds no more than the frames of which
/// something may still live can have brought.
#[derive(Drop)]
pub struct Receiver {
    alloc: Global,
    table: LifeTable,
    joiner: Joiner,
    picture: Picture,
}

impl Model for Receiver {
    ghost use Rattle.receiver_core.specs.StandsFor.{Held, IsSettled};

    ghost Value = { Held };

    ghost view = { λ r. record { table = r.table; joiner = r.joiner; picture = r.picture } };

    ghost invariant = { λ r. IsSettled
        (record { table = r.table; joiner = r.joiner; picture = r.picture }) };
}

impl Receiver {
    /// A receiver that has heard nothing.
    pub fn new(alloc: Global, table: LifeTable) -> Receiver
        ensures { StandsFor table result [] }
    {
        keeps_nothing();
        let joiner = Joiner::new(alloc, longest_lives(&table));
        Receiver {
            alloc,
            table,
            joiner,
            picture: Picture::new(alloc),
        }
    }

    /// Hears a frame at a moment, and answers its header, how many bytes of each block were
    /// corrected, and what of it is passed on unread.
    ///
    /// # Errors
    ///
    /// `Clock` where the moment is below that of the last frame that was heard, `Lost` where a
    /// block has no code word near it, and `NoApplication` where the header says so, in this order;
    /// `NoMemory` where memory runs out. The receiver is then as it was.
    pub fn hear(&mut self, moment: Moment, air: &[u8; FRAME_BYTES]) -> Result<Heard, HearFault>
        ensures heard { (table : LifeTable) (past : List Reception)
            → StandsFor table self.old past
            → HasHeard (StandsFor table self.new) table past (refusal_of_air past moment air.now)
            moment (payload_in air.now) (counts_in air.now) result }
        ensures unchanged { OnErr result (self.new ≡ self.old) }
        ensures bounded { (table : LifeTable) (heard : List Reception)
            → StandsFor table self.new heard → OnOk result (IsBounded table heard self.new) }
    {
        if let Some(kept) = last_above(self.joiner.clock(), moment) {
            return Err(HearFault::Clock { kept });
        }
        functions_of_a_frame();
        let mut payload = [0; PAYLOAD_LENGTH];
        let corrected = match unweave(air, &mut payload) {
            Ok(corrected) => corrected,
            Err(lost) => return Err(HearFault::Lost { block: lost.block }),
        };
        self.take_payload(moment, &payload, corrected)
    }

    /// Hears a payload at a moment, as `hear` does a frame of which nothing had to be corrected.
    ///
    /// # Errors
    ///
    /// Those of `hear`, but never `Lost`.
    pub fn hear_payload(
        &mut self,
        moment: Moment,
        payload: &[u8; PAYLOAD_LENGTH],
    ) -> Result<Heard, HearFault>
        ensures heard { (table : LifeTable) (past : List Reception)
            → StandsFor table self.old past
            → HasHeard (StandsFor table self.new) table past
            (refusal_of_payload past moment payload.now)
            moment (Some payload.now) (replicate 6 0) result }
        ensures unchanged { OnErr result (self.new ≡ self.old) }
        ensures bounded { (table : LifeTable) (heard : List Reception)
            → StandsFor table self.new heard → OnOk result (IsBounded table heard self.new) }
    {
        if let Some(kept) = last_above(self.joiner.clock(), moment) {
            return Err(HearFault::Clock { kept });
        }
        self.take_payload(moment, payload, [0; 6])
    }

    /// Takes a payload, at a moment that is not below the last one.
    fn take_payload(
        &mut self,
        moment: Moment,
        payload: &[u8; PAYLOAD_LENGTH],
        corrected: [u8; 6],
    ) -> Result<Heard, HearFault>
        requires { IsNotBefore self.old.joiner.store.clock moment }
        ensures heard { (table : LifeTable) (past : List Reception)
            → StandsFor table self.old past
            → HasHeard (StandsFor table self.new) table past (payload_refusal payload.now)
            moment (Some payload.now) corrected result }
        ensures unchanged { OnErr result (self.new ≡ self.old) }
        ensures bounded { (table : LifeTable) (heard : List Reception)
            → StandsFor table self.new heard → OnOk result (IsBounded table heard self.new) }
        ensures in_time { IsNotBefore self.old.joiner.store.clock moment }
    {
        let header = read_header(payload);
        if !header.app_valid {
            return Err(HearFault::NoApplication);
        }
        keeps_reception();
        self.joiner.mark();
        self.picture.mark();
        let station = header.station();
        match take_frames(
            self.alloc,
            &self.table,
            station,
            moment,
            payload,
            &mut self.joiner,
            &mut self.picture,
        ) {
            Ok(unread) => {
                keep_at(moment, &mut self.joiner, &mut self.picture);
                receivers_are_bounded();
                Ok(Heard {
                    header,
                    corrected,
                    unread: UnreadList::of(unread),
                })
            }
            Err(_) => {
                self.joiner.undo();
                self.picture.undo();
                Err(HearFault::NoMemory)
            }
        }
    }

    /// The picture at a moment, in the order of its keys.
    ///
    /// # Errors
    ///
    /// `Clock` where the moment is below that of the last frame that was heard, and `NoMemory`
    /// where memory runs out.
    pub fn picture(&self, alloc: Global, moment: Moment) -> Result<Entries, ShowFault>
        ensures { (table : LifeTable) (past : List Reception) → StandsFor table self.now past
            → HasShown table past moment result }
    {
        if let Some(kept) = last_above(self.joiner.clock(), moment) {
            return Err(ShowFault::Clock { kept });
        }
        match self.picture.at(alloc, moment) {
            Ok(shown) => Ok(shown),
            Err(_) => Err(ShowFault::NoMemory),
        }
    }
}

/// Keeps what was taken at a moment, and forgets what has ended then.
fn keep_at(moment: Moment, joiner: &mut Joiner, picture: &mut Picture)
    requires moment { IsNotBefore joiner.old.store.clock moment }
    requires joiner_marked { IsSome joiner.old.mark }
    requires picture_marked { IsSome picture.old.mark }
    ensures joined { (taken : List Arrival) → StandsForArrivals joiner.old.store taken
        → StandsForArrivals joiner.new.store taken }
    ensures longest { joiner.new.store.longest ≡ joiner.old.store.longest }
    ensures no_stale_segments { IsPurged joiner.new.store moment }
    ensures entries { picture.new.entries ≡ live_entries moment picture.old.entries }
    ensures no_ended_entries { live_entries moment picture.new.entries ≡ picture.new.entries }
    ensures joiner_mark { joiner.new.mark ≡ None }
    ensures picture_mark { picture.new.mark ≡ None }
{
    forgets_once();
    joiner.settle();
    picture.settle();
    joiner.purge(moment);
    picture.purge(moment);
}

/// The last moment, where this one is below it.
fn last_above(last: Option<Moment>, moment: Moment) -> Option<Moment>
    ensures { result ≡ last_above last moment }
{
    match last {
        Some(kept) if moment < kept => Some(kept),
        _ => None,
    }
}

/// The longest life of each product that is read; 0 where the table has no row of it.
fn longest_lives(table: &LifeTable) -> Longest
    ensures lives { result ≡ longest_lives table.now }
    ensures rules { IsTable table.now }
{
    Longest {
        regional: table.longest(REGIONAL_RADAR).unwrap_or(0),
        conus: table.longest(CONUS_RADAR).unwrap_or(0),
        text: table.longest(TEXT_PRODUCT).unwrap_or(0),
    }
}
