//! What both commands do: naming a station, giving updates and filling frames.
ghost use Rattle.std.specs.Prelude.{◌≡◌, ℕ, ◌<◌, ◌≤◌, ◌+◌, ◌∷◌, List, [], None, Some, true};
ghost use Rattle.std.specs.Prelude.{IfErr, IfOk, OnErr, OnOk, ◌||◌, if◌then◌else◌, is_some, length};
ghost use Rattle.std.specs.Prelude.{nat_lt};
ghost use Rattle.uplink_frame.specs.declared.station.StationId.{StationId as Place};
ghost use Rattle.uplink_frame.specs.Station.{FitsStation, same_station};
ghost use Rattle.ground_core.specs.Airing.{frame_after};
ghost use Rattle.ground_core.specs.OnAir.{IsOnAir};
ghost use Rattle.run_core.specs.Actor.{HasOpened};
ghost use Rattle.script_core.specs.LineView.{line_view, HasRanges};
ghost use Rattle.script_core.specs.Script.{Line as ScriptLine, station, turn};
ghost use Rattle.fisb_app.specs.declared.party.Party.{Party as AnyParty};
ghost use Rattle.fisb_app.specs.Past.{events, station_after};
ghost use Rattle.fisb_app.specs.Reading.{is_update, own_refusal, turn_refusal};
ghost use Rattle.fisb_app.specs.Stands.{HasRead, HasTried, Holds, IsChangedTo, IsSameSending};
ghost use Rattle.fisb_app.specs.Stands.{ground_at, ground_or};
ghost use Rattle.fisb_app.specs.Work.{opened_with, opening_table};

use crate::sender::Sender;
use crate::stopping::{answer, kept_of};
use fisb_time::Moment;
use ground_core::AirFrame;
use ground_core::laws::histories_grow;
use life_table::{LifeTable, TableFault};
use run_core::Stop;
use script_core::{Line, Reason};
use std::alloc::{AllocError, Global};
use std::collections::BTreeMap;
use std::mem;
use uplink_frame::StationId;
use uplink_frame::laws::stations_are_told;

/// The most frames of a run.
pub(crate) const FRAME_LIMIT: usize = 65_536;

/// The most stations that are named.
const STATION_LIMIT: usize = 16;

/// What is sent.
#[derive(Drop)]
pub(crate) struct Sending<G: Sender> {
    pub(crate) table: LifeTable,
    /// The station that was named last, and its ground.
    pub(crate) station: StationId,
    pub(crate) ground: G,
    /// The grounds of the other stations.
    pub(crate) others: BTreeMap<StationId, G>,
}

impl<G: Sender> Sending<G> {
    /// Before any line, under the table of some bytes.
    pub(crate) fn new(alloc: Global, table: &[u8]) -> Result<Sending<G>, Stop>
        ensures { HasOpened (opened_with (opening_table table.now))
            (Holds G.stands table.now []) result }
    {
        let station = StationId {
            lat: 0,
            lon: 0,
            position_valid: false,
            site: 0,
        };
        let table = read_table(alloc, table)?;
        let Ok(copy) = table.copy(alloc) else {
            return Err(Stop::NoMemory);
        };
        Ok(Sending {
            table,
            station,
            ground: G::new(alloc, station, copy),
            others: BTreeMap::new(alloc),
        })
    }

    /// Names the station that the following lines concern. Its ground is made where it is first
    /// named.
    pub(crate) fn name_station(&mut self, alloc: Global, named: StationId) -> Result<(), Stop>
        requires { FitsStation named }
        ensures named { (party : AnyParty) (bytes : List ℕ) (acted : List ScriptLine)
            → Holds G.stands bytes acted self.old
            → HasTried (own_refusal party self.old.table acted (station named))
            (λ done. Holds G.stands bytes (station named ∷ acted) self.new) result }
        ensures same { (bytes : List ℕ) (acted : List ScriptLine)
            → Holds G.stands bytes acted self.old
            → OnErr result (Holds G.stands bytes acted self.new) }
        ensures table { self.new.table ≡ self.old.table }
    {
        stations_are_told();
        if named == self.station {
            return Ok(());
        }
        match self.first_ground(alloc, named) {
            Ok(first) => self.change_to(named, first),
            Err(stop) => Err(stop),
        }
    }

    /// A ground for another station than that which was named last, that was given nothing. It is
    /// made also where one is kept for that station, and then only holds a place while grounds move.
    fn first_ground(&self, alloc: Global, named: StationId) -> Result<G, Stop>
        requires { FitsStation named }
        ensures { HasTried (if is_some (ground_at self.now.others named)
            || nat_lt (length self.now.others.entries) 16 then None else Some Reason.Station)
            (G.stands self.now.table named []) result }
    {
        if !self.others.contains_key(&named) && self.others.len() >= STATION_LIMIT {
            return Err(Stop::Refused(Reason::Station));
        }
        match self.table.copy(alloc) {
            Ok(table) => Ok(G::new(alloc, named, table)),
            Err(AllocError) => Err(Stop::NoMemory),
        }
    }

    /// Goes on with another station than that which was named last: with the ground that is kept
    /// for it, or with its first one.
    fn change_to(&mut self, named: StationId, first: G) -> Result<(), Stop>
        ensures changed { OnOk result (IsChangedTo named first self.old self.new) }
        ensures stops { IfErr result (λ stop. stop ≡ Stop.NoMemory) }
        ensures same { OnErr result (IsSameSending self.old self.new) }
    {
        // The ground of the last station is put away first: only that may run out of memory.
        match self.put_away(first) {
            Ok(()) => {
                self.take_back(named);
                Ok(())
            }
            Err(stop) => Err(stop),
        }
    }

    /// Puts a ground in the place of that of the last station, which goes to the others.
    fn put_away(&mut self, first: G) -> Result<(), Stop>
        ensures others { (place : Place) → OnOk result (ground_at self.new.others place
            ≡ (if same_station self.old.station place then Some self.old.ground
            else ground_at self.old.others place)) }
        ensures count { ground_at self.old.others self.old.station ≡ None
            → OnOk result (length self.new.others.entries
            ≡ length self.old.others.entries + 1) }
        ensures ground { OnOk result (self.new.ground ≡ first) }
        ensures of_station { self.new.station ≡ self.old.station }
        ensures table { self.new.table ≡ self.old.table }
        ensures stops { IfErr result (λ stop. stop ≡ Stop.NoMemory) }
        ensures same { OnErr result (IsSameSending self.old self.new) }
    {
        let before = mem::replace(&mut self.ground, first);
        match self.others.insert(self.station, before) {
            Ok(_) => Ok(()),
            Err(refused) => {
                let (_, before) = refused.value;
                self.ground = before;
                Err(Stop::NoMemory)
            }
        }
    }

    /// Names a station, and takes the ground that is kept for it, if one is.
    fn take_back(&mut self, named: StationId)
        ensures others { (place : Place) → ground_at self.new.others place
            ≡ (if same_station named place then None else ground_at self.old.others place) }
        ensures count { length self.new.others.entries
            + (if is_some (ground_at self.old.others named) then 1 else 0)
            ≡ length self.old.others.entries }
        ensures ground { self.new.ground ≡ ground_or self.old.ground
            (ground_at self.old.others named) }
        ensures of_station { self.new.station ≡ named }
        ensures table { self.new.table ≡ self.old.table }
    {
        if let Some(ground) = self.others.remove(&named) {
            self.ground = ground;
        }
        self.station = named;
    }

    /// Gives the update of a line to the ground.
    pub(crate) fn give(&mut self, line: &Line) -> Result<(), Stop>
        requires ranges { HasRanges 32768 (line_view line.now) }
        requires update { is_update (line_view line.now) ≡ true }
        ensures given { (party : AnyParty) (bytes : List ℕ) (acted : List ScriptLine)
            → Holds G.stands bytes acted self.old
            → HasTried (own_refusal party self.old.table acted (line_view line.now))
            (λ done. Holds G.stands bytes (line_view line.now ∷ acted) self.new) result }
        ensures same { (bytes : List ℕ) (acted : List ScriptLine)
            → Holds G.stands bytes acted self.old
            → OnErr result (Holds G.stands bytes acted self.new) }
        ensures table { self.new.table ≡ self.old.table }
    {
        histories_grow();
        match line {
            Line::Text {
                moment,
                version,
                report,
            } => answer(self.ground.give_text(*moment, *version, report.as_str())),
            Line::Radar {
                moment,
                version,
                key,
                cells,
            } => answer(self.ground.give_cells(*moment, *version, key, cells)),
            Line::Blank {
                moment,
                version,
                product,
                scale,
                south,
                numbers,
            } => answer(
                self.ground
                    .give_blanks(*moment, *version, *product, *scale, *south, numbers.all()),
            ),
            _ => Ok(()),
        }
    }

    /// Fills a frame, where so many were filled before.
    pub(crate) fn turn(
        &mut self,
        count: usize,
        moment: Moment,
        slot: u8,
    ) -> Result<AirFrame, Reason>
        requires { slot < 32 }
        ensures filled { (bytes : List ℕ) (acted : List ScriptLine)
            → Holds G.stands bytes acted self.old
            → OnOk result (Holds G.stands bytes (turn moment slot ∷ acted) self.new) }
        ensures frame { (bytes : List ℕ) (acted : List ScriptLine)
            → Holds G.stands bytes acted self.old
            → IfOk result (IsOnAir
            (frame_after self.old.table (station_after acted) (events acted) moment slot)) }
        ensures in_time { (bytes : List ℕ) (acted : List ScriptLine)
            → Holds G.stands bytes acted self.old
            → OnOk result (turn_refusal count acted moment ≡ None) }
        ensures refused { (bytes : List ℕ) (acted : List ScriptLine)
            → Holds G.stands bytes acted self.old
            → IfErr result (λ why. turn_refusal count acted moment ≡ Some why) }
        ensures room { OnOk result (count < 65536) }
        ensures same { OnErr result (self.new ≡ self.old) }
        ensures table { self.new.table ≡ self.old.table }
    {
        histories_grow();
        if count >= FRAME_LIMIT {
            return Err(self.reason_when_full(moment));
        }
        match self.ground.fill(moment, slot) {
            Ok(frame) => Ok(frame),
            Err(fault) => Err(Reason::Clock {
                kept: kept_of(fault),
            }),
        }
    }

    /// The first reason against a frame after the last one.
    fn reason_when_full(&self, moment: Moment) -> Reason
        ensures { (bytes : List ℕ) (acted : List ScriptLine) (count : ℕ) → 65536 ≤ count
            → Holds G.stands bytes acted self.now
            → turn_refusal count acted moment ≡ Some result }
    {
        match self.ground.kept_above(moment) {
            Some(kept) => Reason::Clock { kept },
            None => Reason::Frames,
        }
    }
}

/// The table of some bytes: no bytes stand for the default one.
pub(crate) fn read_table(alloc: Global, bytes: &[u8]) -> Result<LifeTable, Stop>
    ensures { HasRead (opening_table bytes.now) result }
{
    if bytes.is_empty() {
        return match LifeTable::default_table(alloc) {
            Ok(table) => Ok(table),
            Err(AllocError) => Err(Stop::NoMemory),
        };
    }
    match LifeTable::read(alloc, bytes) {
        Ok(table) => Ok(table),
        Err(TableFault::NotToml) => Err(Stop::Refused(Reason::NotToml)),
        Err(TableFault::BadRow { row, reason }) => {
            Err(Stop::Refused(Reason::BadRow { row, reason }))
        }
        Err(TableFault::NoMemory) => Err(Stop::NoMemory),
    }
}
