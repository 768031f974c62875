//! What gives a command its frames.
ghost use Rattle.std.specs.Prelude.{◌≡◌, ℕ, ◌<◌, ◌^◌, ◌∷◌, [], List, None, Some, IfErr, IfOk};
ghost use Rattle.std.specs.Prelude.{OnErr, OnOk, length};
ghost use Rattle.life_table.specs.LifeTable.{LifeTable as Table};
ghost use Rattle.uplink_frame.specs.declared.station.StationId.{StationId as Place};
ghost use Rattle.uplink_frame.specs.Station.{FitsStation};
ghost use Rattle.ground_core.specs.History.{Event, fill};
ghost use Rattle.ground_core.specs.Airing.{frame_after};
ghost use Rattle.ground_core.specs.Update.{text as text_update, block as block_update};
ghost use Rattle.ground_core.specs.Update.{blanks as blanks_update};
ghost use Rattle.ground_core.specs.Told.{kept_told};
ghost use Rattle.segment_core.specs.Store.{last_above};
ghost use Rattle.ground_core.specs.OnAir.{IsOnAir, history_clock};
ghost use Rattle.ground_core.specs.StandsFor.{StandsFor};
ghost use Rattle.fisb_app.specs.Stands.{HasGiven};

use fisb_time::Moment;
use ground_core::{AirFrame, FillFault, GiveFault, Ground};
use life_table::LifeTable;
use radar_core::{BlockKey, Cells};
use std::alloc::Global;
use uplink_frame::StationId;

/// A ground of weather: it takes texts and radar, and fills frames.
pub(crate) trait Sender: Drop {
    // The ground of a station stands for this history, the newest event first.
    ghost stands: { Table → Place → List Event → Self → Type 0 };

    /// A ground that was given nothing.
    fn new(alloc: Global, station: StationId, table: LifeTable) -> Self
        requires { FitsStation station }
        ensures { stands table station [] result };

    /// Gives a text of a version.
    fn give_text(&mut self, moment: Moment, version: Moment, text: &str) -> Result<(), GiveFault>
        requires { length text.now < 2 ^ 32 }
        ensures { HasGiven stands self.old self.new moment (text_update version text.now) result };

    /// Gives the cells of a block of a version.
    fn give_cells(
        &mut self,
        moment: Moment,
        version: Moment,
        key: &BlockKey,
        cells: &Cells,
    ) -> Result<(), GiveFault>
        ensures { HasGiven stands self.old self.new moment
            (block_update version key.now cells.now) result };

    /// Gives blocks of a version whose cells are all 0, by their numbers in an area.
    fn give_blanks(
        &mut self,
        moment: Moment,
        version: Moment,
        product: u16,
        scale: u8,
        south: bool,
        numbers: &[u32],
    ) -> Result<(), GiveFault>
        ensures { HasGiven stands self.old self.new moment
            (blanks_update version product scale south numbers.now) result };

    /// The moment of the last accepted call, where the given one is below it.
    fn kept_above(&self, moment: Moment) -> Option<Moment>
        ensures { (table : Table) (station : Place) (history : List Event)
            → stands table station history self.now
            → result ≡ last_above (history_clock history) moment };

    /// Fills the frame of a slot.
    fn fill(&mut self, moment: Moment, slot: u8) -> Result<AirFrame, FillFault>
        requires { slot < 32 }
        ensures filled { (table : Table) (station : Place) (history : List Event)
            → stands table station history self.old
            → OnOk result (stands table station (fill moment slot ∷ history) self.new) }
        ensures frame { (table : Table) (station : Place) (history : List Event)
            → stands table station history self.old
            → IfOk result (IsOnAir (frame_after table station history moment slot)) }
        ensures in_time { (table : Table) (station : Place) (history : List Event)
            → stands table station history self.old
            → OnOk result (last_above (history_clock history) moment ≡ None) }
        ensures refused { (table : Table) (station : Place) (history : List Event)
            → stands table station history self.old
            → IfErr result (λ fault. last_above (history_clock history) moment
            ≡ Some (kept_told fault)) }
        ensures same { OnErr result (self.new ≡ self.old) };
}

impl Sender for Ground {
    ghost stands = { λ table station history ground. StandsFor table station ground history };

    fn new(alloc: Global, station: StationId, table: LifeTable) -> Ground {
        Ground::new(alloc, station, table)
    }

    fn give_text(&mut self, moment: Moment, version: Moment, text: &str) -> Result<(), GiveFault> {
        Ground::give_text(self, moment, version, text)
    }

    fn give_cells(
        &mut self,
        moment: Moment,
        version: Moment,
        key: &BlockKey,
        cells: &Cells,
    ) -> Result<(), GiveFault> {
        Ground::give_cells(self, moment, version, key, cells)
    }

    fn give_blanks(
        &mut self,
        moment: Moment,
        version: Moment,
        product: u16,
        scale: u8,
        south: bool,
        numbers: &[u32],
    ) -> Result<(), GiveFault> {
        Ground::give_blanks(self, moment, version, product, scale, south, numbers)
    }

    fn kept_above(&self, moment: Moment) -> Option<Moment> {
        Ground::kept_above(self, moment)
    }

    fn fill(&mut self, moment: Moment, slot: u8) -> Result<AirFrame, FillFault> {
        Ground::fill(self, moment, slot)
    }
}
