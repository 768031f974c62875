//! The ground.
ghost use Rattle.std.specs.Prelude.{◌≡◌, ℕ, ◌+◌, ◌≤◌, ◌<◌, ◌^◌, ◌∷◌, [], ◌++◌, List, Option, Some};
ghost use Rattle.std.specs.Prelude.{None, true, length, map, IfOk, IfErr, OnOk, OnErr};
ghost use Rattle.fisb_time.specs.Moment.{IsMoment};
ghost use Rattle.life_table.specs.LifeTable.{LifeTable as Table, greatest_life};
ghost use Rattle.uplink_frame.specs.declared.station.StationId.{StationId as Place};
ghost use Rattle.apdu_core.specs.Apdu.{file_numbers};
ghost use Rattle.uplink_frame.specs.UplinkFrame.{frame_room};
ghost use Rattle.uplink_frame.specs.Station.{FitsStation};
ghost use Rattle.ground_core.specs.History.{Event, accepted, fill, items};
ghost use Rattle.segment_core.specs.File as of_file;
ghost use Rattle.ground_core.specs.Update.{text as text_update, block as block_update};
ghost use Rattle.ground_core.specs.Update.{blanks as blanks_update, weather_of};
ghost use Rattle.ground_core.specs.Refusal.{give_refusal};

use crate::air_frame::{AirFrame, air_of};
use crate::area::Area;
use crate::fault::{FillFault, GiveFault};
use crate::files::Files;
use crate::item::SentItem;
use crate::item_keys::ItemKeys;
use crate::judging::{
    age_fault, are_blanks, file_number, is_block, key_of_text, payload_of_text, radar_validity,
    timing_fault,
};
use crate::laws::accepted_is_given;
use crate::line::Line;
use crate::newest::{Newest, given_of};
use crate::numbered_key::NumberedKey;
use crate::radar_items::{block_item, group_items};
use fisb_time::Moment;
use life_table::laws::longest_is_greatest;
use life_table::{CONUS_RADAR, LifeTable, REGIONAL_RADAR, TEXT_PRODUCT};
use picture_core::laws::{keys_are_ordered, life_of_entries};
use radar_core::{BlockKey, Cells, group_blanks};
use segment_core::{is_segmented, part_count};
use std::alloc::Global;
use std::rc::Rc;
use uplink_frame::{AppData, StationId};

/// The ground: what it was given and has to send.
#[derive(Drop)]
pub struct Ground {
    alloc: Global,
    station: StationId,
    table: LifeTable,
    clock: Option<Moment>,
    /// No item lives longer.
    life: u64,
    given: u64,
    newest: Newest,
    files: Files,
    line: Line,
    ghost fits: { FitsStation station },
    ghost longest: { life ≡ greatest_life table },
}

impl Ground {
    ghost use Rattle.ground_core.specs.Airing.{frame_after};
    ghost use Rattle.ground_core.specs.Told.{IsTold, IsToldAt, kept_told, refusal_by};
    ghost use Rattle.segment_core.specs.Store.{last_above};
    ghost use Rattle.ground_core.specs.StandsFor.{StandsFor, IsOnAir, history_clock};
    ghost use Rattle.ground_core.specs.Views.{latest_at, count_at};
    ghost use Rattle.ground_core.specs.Putting.{IsPut, IsAsBefore, AreItemsOf, IsUncut, AreWhole};
    ghost use Rattle.ground_core.specs.Putting.{AreItemsFrom, values_of};
    ghost use Rattle.life_table.specs.Rules.{IsTable};
    ghost use Rattle.radar_core.specs.Cells.{IsCells};

    /// A ground that was given nothing, at a station, under a table.
    pub fn new(alloc: Global, station: StationId, table: LifeTable) -> Ground
        requires { FitsStation station }
        ensures { StandsFor table station result [] }
    {
        let life = greatest_life(&table);
        Ground {
            alloc,
            station,
            life,
            table,
            clock: None,
            given: 0,
            newest: Newest::new(alloc),
            files: Files::new(alloc),
            line: Line::new(alloc),
        }
    }

    /// Gives a text of a version at a moment. It takes the place of the one that was given before it under the same key.
    ///
    /// # Errors
    ///
    /// The first of these, each exactly where it says. `Clock`: the moment is below that of the last accepted call.
    /// `BadText`: the text cannot be sent. `FewWords`, `Unlisted`: it has no key. `Coarse`: the form of its type does not
    /// show the version. `Ahead`: the version is more than 60 seconds after the moment. `Expired`: its life is over at the
    /// moment. `NotNewer`: the key was given before with a version that is not below this one. `NoFile`: the text is sent
    /// in segments and no file number is free. `NoMemory` where memory runs out. A refused call changes nothing that counts.
    pub fn give_text(
        &mut self,
        moment: Moment,
        version: Moment,
        text: &str,
    ) -> Result<(), GiveFault>
        requires { length text.now < 2 ^ 32 }

        // For every history that the object stands for: an accepted text is one more update, which
        // nothing stood against.
        ensures accepted { (table : Table) (station : Place) (history : List Event)
            → StandsFor table station self.old history
            → OnOk result (StandsFor table station self.new (accepted moment
            (text_update version text.now) ∷ history)) }
        ensures nothing_against { (table : Table) (station : Place) (history : List Event)
            → StandsFor table station self.old history
            → OnOk result ((last_above (history_clock history) moment ≡ None)
            × (give_refusal table (items table station history) moment
            (text_update version text.now) ≡ None)) }

        // The fault is the first reason, and the object stands for the same history.
        ensures refused { (table : Table) (station : Place) (history : List Event)
            → StandsFor table station self.old history
            → IfErr result (IsToldAt (last_above (history_clock history) moment)
            (give_refusal table (items table station history) moment
            (text_update version text.now))) }
        ensures same { (table : Table) (station : Place) (history : List Event)
            → StandsFor table station self.old history
            → OnErr result (StandsFor table station self.new history) }
    {
        longest_is_greatest();
        keys_are_ordered();
        accepted_is_given();
        life_of_entries();
        if let Some(kept) = self.last_above(moment) {
            return Err(GiveFault::Clock { kept });
        }
        let item = self.item_of_text(moment, version, text)?;
        self.put(moment, item)
    }

    /// Gives the cells of a block of a version at a moment. They take the place of what was given before under its key.
    ///
    /// # Errors
    ///
    /// The first of these, each exactly where it says. `Clock`: the moment is below that of the last accepted call.
    /// `Unlisted`: the product has no row. `BadBlock`: the scale is over 2 or the number over 1,048,575. `Coarse`, `Ahead`,
    /// `Expired` and `NotNewer`: as for a text. `NoMemory` where memory runs out. A refused call changes nothing that counts.
    pub fn give_cells(
        &mut self,
        moment: Moment,
        version: Moment,
        key: &BlockKey,
        cells: &Cells,
    ) -> Result<(), GiveFault>
        // For every history that the object stands for: accepted cells are one more update, which
        // nothing stood against.
        ensures accepted { (table : Table) (station : Place) (history : List Event)
            → StandsFor table station self.old history
            → OnOk result (StandsFor table station self.new (accepted moment
            (block_update version key.now cells.now) ∷ history)) }
        ensures nothing_against { (table : Table) (station : Place) (history : List Event)
            → StandsFor table station self.old history
            → OnOk result ((last_above (history_clock history) moment ≡ None)
            × (give_refusal table (items table station history) moment
            (block_update version key.now cells.now) ≡ None)) }

        // The fault is the first reason, and the object stands for the same history.
        ensures refused { (table : Table) (station : Place) (history : List Event)
            → StandsFor table station self.old history
            → IfErr result (IsToldAt (last_above (history_clock history) moment)
            (give_refusal table (items table station history) moment
            (block_update version key.now cells.now))) }
        ensures same { (table : Table) (station : Place) (history : List Event)
            → StandsFor table station self.old history
            → OnErr result (StandsFor table station self.new history) }
    {
        longest_is_greatest();
        keys_are_ordered();
        accepted_is_given();
        life_of_entries();
        if let Some(kept) = self.last_above(moment) {
            return Err(GiveFault::Clock { kept });
        }
        let item = self.item_of_cells(moment, version, key, cells)?;
        self.put(moment, item)
    }

    /// Gives empty blocks of a version at a moment: each cell of them has intensity 0. They are named by their numbers, which
    /// rise, in the area of a product, a scale and a hemisphere.
    ///
    /// # Errors
    ///
    /// The first of these, each exactly where it says. `Clock`: the moment is below that of the last accepted call.
    /// `Unlisted`: the product has no row. `BadBlock`: the scale is over 2, or the list is empty, does not rise strictly,
    /// has more than 1,024 numbers or a number of 405,000 or more. `Coarse`, `Ahead` and `Expired`: as for a text.
    /// `NotNewer`: one of the numbers was given before with a version not below this one, that of the first such number.
    /// `NoMemory` where memory runs out. A refused call changes nothing that counts.
    pub fn give_blanks(
        &mut self,
        moment: Moment,
        version: Moment,
        product: u16,
        scale: u8,
        south: bool,
        numbers: &[u32],
    ) -> Result<(), GiveFault>
        // For every history that the object stands for: accepted blocks are one more update, which
        // nothing stood against.
        ensures accepted { (table : Table) (station : Place) (history : List Event)
            → StandsFor table station self.old history
            → OnOk result (StandsFor table station self.new (accepted moment
            (blanks_update version product scale south numbers.now) ∷ history)) }
        ensures nothing_against { (table : Table) (station : Place) (history : List Event)
            → StandsFor table station self.old history
            → OnOk result ((last_above (history_clock history) moment ≡ None)
            × (give_refusal table (items table station history) moment
            (blanks_update version product scale south numbers.now) ≡ None)) }

        // The fault is the first reason, and the object stands for the same history.
        ensures refused { (table : Table) (station : Place) (history : List Event)
            → StandsFor table station self.old history
            → IfErr result (IsToldAt (last_above (history_clock history) moment)
            (give_refusal table (items table station history) moment
            (blanks_update version product scale south numbers.now))) }
        ensures same { (table : Table) (station : Place) (history : List Event)
            → StandsFor table station self.old history
            → OnErr result (StandsFor table station self.new history) }
    {
        longest_is_greatest();
        keys_are_ordered();
        accepted_is_given();
        life_of_entries();
        if let Some(kept) = self.last_above(moment) {
            return Err(GiveFault::Clock { kept });
        }
        let area = Area {
            product,
            scale,
            south,
        };
        let items = self.items_of_blanks(moment, version, area, numbers)?;
        self.put_all(moment, &items)
    }

    /// Fills the frame of a slot at a moment with the first of what waits, as far as it fits; what is aired waits last from
    /// then on. It takes no memory. What it airs is what the definitions air, so no segment waits for ever
    /// (`no_starvation`).
    ///
    /// # Errors
    ///
    /// `Clock` exactly where the moment is below that of the last accepted call, which the fault has; nothing is changed then.
    pub fn fill(&mut self, moment: Moment, slot: u8) -> Result<AirFrame, FillFault>
        requires { slot < 32 }

        // For every history that the object stands for: the frame is that of one more fill.
        ensures filled { (table : Table) (station : Place) (history : List Event)
            → StandsFor table station self.old history
            → OnOk result (StandsFor table station self.new (fill moment slot ∷ history)) }
        ensures frame { (table : Table) (station : Place) (history : List Event)
            → StandsFor table station self.old history
            → IfOk result (IsOnAir (frame_after table station history moment slot)) }
        ensures in_time { (table : Table) (station : Place) (history : List Event)
            → StandsFor table station self.old history
            → OnOk result (last_above (history_clock history) moment ≡ None) }

        ensures refused { (table : Table) (station : Place) (history : List Event)
            → StandsFor table station self.old history
            → IfErr result (λ fault. last_above (history_clock history) moment
            ≡ Some (kept_told fault)) }
        ensures same { OnErr result (self.new ≡ self.old) }

        ensures room { IfOk result (λ frame. frame.used ≤ frame_room) }
    {
        apdu_core::laws::apdu_reads_back();
        keys_are_ordered();
        uplink_frame::laws::stations_are_told();
        if let Some(kept) = self.last_above(moment) {
            return Err(FillFault::Clock { kept });
        }
        let mut frames = AppData::new();
        let bodies = self.line.air(&mut self.newest, moment, &mut frames);
        self.files.forget(moment, self.life);
        self.clock = Some(moment);
        Ok(AirFrame {
            moment,
            slot,
            bodies: bodies as u16,
            used: frames.used_bytes(),
            air: air_of(self.station, slot, &frames),
        })
    }

    /// The moment of the last accepted call, where the given one is below it: at that moment every call is refused.
    pub fn kept_above(&self, moment: Moment) -> Option<Moment>
        ensures { (table : Table) (station : Place) (history : List Event)
            → StandsFor table station self.now history
            → result ≡ last_above (history_clock history) moment }
    {
        self.last_above(moment)
    }

    fn last_above(&self, moment: Moment) -> Option<Moment>
        ensures last { result ≡ last_above self.now.clock moment }
        ensures in_range { IsMoment moment }
        ensures rules { IsTable self.now.table }
    {
        let _late = self.table.late();
        let seconds = moment.seconds();
        match self.clock {
            Some(last) if seconds < last.seconds() => Some(last),
            _ => None,
        }
    }

    /// What is sent of a text, or the first reason against it.
    fn item_of_text(
        &self,
        moment: Moment,
        version: Moment,
        text: &str,
    ) -> Result<SentItem, GiveFault>
        requires { length text.now < 2 ^ 32 }
        ensures item { IfOk result (λ item. AreItemsOf (count_at self.now.files) self.now.given
            (weather_of self.now.table (text_update version text.now)) (item ∷ [])) }
        ensures few { IfOk result (λ item. of_file.is_segmented item.form item.payload ≡ true
            → count_at self.now.files item.version item.product < file_numbers) }
        ensures in_range { OnOk result (IsMoment version) }
        ensures none { OnOk result (refusal_by self.now.table (latest_at self.now.newest)
            (count_at self.now.files)
            moment (text_update version text.now) ≡ None) }
        ensures fault { IfErr result (IsTold (refusal_by self.now.table
            (latest_at self.now.newest) (count_at self.now.files)
            moment (text_update version text.now))) }
    {
        dlac_text::laws::payload_size();
        let payload = payload_of_text(self.alloc, text)?;
        let key = key_of_text(self.alloc, &self.table, text)?;
        let Some(row) = self.table.text_row(key.kind.all()) else {
            return Err(GiveFault::Unlisted);
        };
        let Ok(key) = NumberedKey::new(self.alloc, key) else {
            return Err(GiveFault::NoMemory);
        };
        if let Some(fault) = timing_fault(moment, version, row.form, row.life) {
            return Err(fault);
        }
        if let Some(fault) = age_fault(version, self.newest.version_of(&key)) {
            return Err(fault);
        }
        let size = payload.len();
        let segmented = is_segmented(row.form, size);
        let file = file_number(&self.files, version, TEXT_PRODUCT, segmented)?;
        Ok(SentItem {
            serial: self.given,
            version,
            until: version.seconds() + row.life,
            product: TEXT_PRODUCT,
            form: row.form,
            file,
            count: part_count(row.form, size),
            keys: ItemKeys::OfReport(key),
            payload,
        })
    }

    /// What is sent of the cells of a block, or the first reason against them.
    fn item_of_cells(
        &self,
        moment: Moment,
        version: Moment,
        key: &BlockKey,
        cells: &Cells,
    ) -> Result<SentItem, GiveFault>
        ensures item { IfOk result (λ item. AreItemsFrom self.now.given
            (weather_of self.now.table (block_update version key.now cells.now)) (item ∷ [])) }
        ensures whole { IfOk result IsUncut }
        ensures in_range { OnOk result (IsMoment version) }
        ensures cells { IsCells cells.now }
        ensures none { OnOk result (refusal_by self.now.table (latest_at self.now.newest)
            (count_at self.now.files)
            moment (block_update version key.now cells.now) ≡ None) }
        ensures fault { IfErr result (IsTold (refusal_by self.now.table
            (latest_at self.now.newest) (count_at self.now.files)
            moment (block_update version key.now cells.now))) }
    {
        let _cell = cells.at(0);
        let validity = radar_validity(&self.table, key.product, is_block(key), moment, version)?;
        if let Some(fault) = age_fault(version, self.newest.blocks.version_of(key)) {
            return Err(fault);
        }
        let Ok(item) = block_item(self.alloc, self.given, &validity, key, cells) else {
            return Err(GiveFault::NoMemory);
        };
        Ok(item)
    }

    /// What is sent of empty blocks, or the first reason against them.
    fn items_of_blanks(
        &self,
        moment: Moment,
        version: Moment,
        area: Area,
        numbers: &[u32],
    ) -> Result<Vec<Rc<SentItem>>, GiveFault>
        ensures items { IfOk result (λ items. AreItemsFrom self.now.given
            (weather_of self.now.table (blanks_update version area.product area.scale area.south
            numbers.now)) (values_of items.items)) }
        ensures whole { IfOk result (λ items. AreWhole (values_of items.items)) }
        ensures in_range { OnOk result (IsMoment version) }
        ensures none { OnOk result (refusal_by self.now.table (latest_at self.now.newest)
            (count_at self.now.files) moment
            (blanks_update version area.product area.scale area.south numbers.now) ≡ None) }
        ensures fault { IfErr result (IsTold (refusal_by self.now.table
            (latest_at self.now.newest) (count_at self.now.files) moment
            (blanks_update version area.product area.scale area.south numbers.now))) }
    {
        radar_core::laws::groups_are_records();
        let is_named = are_blanks(area.scale, numbers);
        let validity = radar_validity(&self.table, area.product, is_named, moment, version)?;
        if let Some(fault) = self.newest.blocks.age_fault(&area, numbers, version) {
            return Err(fault);
        }
        let Ok(groups) = group_blanks(self.alloc, numbers) else {
            return Err(GiveFault::NoMemory);
        };
        let Some(_) = self.given.checked_add(groups.len() as u64) else {
            return Err(GiveFault::NoMemory);
        };
        let Ok(items) = group_items(self.alloc, self.given, &validity, area, &groups) else {
            return Err(GiveFault::NoMemory);
        };
        Ok(items)
    }

    /// Puts an item after what waits. Whatever takes memory comes before what counts is changed.
    fn put(&mut self, moment: Moment, item: SentItem) -> Result<(), GiveFault>
        requires { of_file.is_segmented item.form item.payload ≡ true
            → count_at self.old.files item.version item.product < file_numbers }
        ensures ok { OnOk result (IsPut self.old moment (item ∷ []) self.new) }
        ensures err { IfErr result (λ fault. fault ≡ GiveFault.NoMemory) }
        ensures unchanged { OnErr result (IsAsBefore self.old self.new) }
    {
        let Some(given) = self.given.checked_add(1) else {
            return Err(GiveFault::NoMemory);
        };
        let Ok(()) = self.files.reserve(&item) else {
            return Err(GiveFault::NoMemory);
        };
        let Ok(item) = Rc::new(self.alloc, item) else {
            return Err(GiveFault::NoMemory);
        };
        let before = self.line.len();
        let Ok(()) = self.line.put(&item) else {
            return Err(GiveFault::NoMemory);
        };
        let Ok(()) = self.newest.put(&item.keys, &given_of(&item)) else {
            self.line.keep_first(before);
            return Err(GiveFault::NoMemory);
        };
        self.files.count_item(&item);
        self.files.forget(moment, self.life);
        self.given = given;
        self.clock = Some(moment);
        Ok(())
    }

    /// Puts items of blocks after what waits, which are all sent whole. Whatever takes memory comes before what counts is
    /// changed.
    fn put_all(&mut self, moment: Moment, items: &[Rc<SentItem>]) -> Result<(), GiveFault>
        requires { AreWhole (values_of items.now) }
        ensures ok { OnOk result (IsPut self.old moment (values_of items.now) self.new) }
        ensures err { IfErr result (λ fault. fault ≡ GiveFault.NoMemory) }
        ensures unchanged { OnErr result (IsAsBefore self.old self.new) }
    {
        let Some(given) = self.given.checked_add(items.len() as u64) else {
            return Err(GiveFault::NoMemory);
        };
        let Ok(()) = self.newest.reserve_all(items) else {
            return Err(GiveFault::NoMemory);
        };
        let before = self.line.len();
        let Ok(()) = self.line.put_all(items) else {
            self.line.keep_first(before);
            return Err(GiveFault::NoMemory);
        };
        self.newest.put_all(items);
        self.files.forget(moment, self.life);
        self.given = given;
        self.clock = Some(moment);
        Ok(())
    }
}

/// The greatest life of any row of a table.
fn greatest_life(table: &LifeTable) -> u64
    ensures { result ≡ greatest_life table.now }
{
    let reports = table.longest(TEXT_PRODUCT).unwrap_or(0);
    let regional = table.longest(REGIONAL_RADAR).unwrap_or(0);
    let conus = table.longest(CONUS_RADAR).unwrap_or(0);
    reports.max(regional.max(conus))
}
