//! How many items in segments were given, of each version that is not over.
ghost use Rattle.std.specs.Prelude.{◌≡◌, ◌<◌, ◌+◌, ◌&&◌, ◌==◌, ℕ, true, false, nat_le, nat_lt};
ghost use Rattle.std.specs.Prelude.{length, if◌then◌else◌, OnOk};
ghost use Rattle.std.specs.Bool.{OnTrue, OnFalse};
ghost use Rattle.apdu_core.specs.Apdu.{file_numbers};
ghost use Rattle.segment_core.specs.File as of_file;

use crate::item::SentItem;
use fisb_time::Moment;
use std::alloc::{AllocError, Global};
use std::collections::BTreeMap;

/// How many items in segments were given of each version and product.
#[derive(Drop)]
pub(crate) struct Files {
    counts: BTreeMap<(u64, u16), u64>,
}

impl Files {
    ghost use Rattle.ground_core.specs.Views.{count_at};
    ghost use Rattle.ground_core.specs.Counts.{HasRoomToCount};

    /// Nothing was given.
    pub(crate) fn new(alloc: Global) -> Files
        ensures { (version product : ℕ) → count_at result version product ≡ 0 }
    {
        Files {
            counts: BTreeMap::new(alloc),
        }
    }

    /// How many items in segments were given of a version and a product.
    pub(crate) fn of(&self, version: Moment, product: u16) -> u64
        ensures { result ≡ count_at self.now version product }
    {
        match self.counts.get(&(version.seconds(), product)) {
            Some(count) => *count,
            None => 0,
        }
    }

    /// Makes room to count an item, where it is sent in segments.
    pub(crate) fn reserve(&mut self, item: &SentItem) -> Result<(), AllocError>
        ensures same { (v p : ℕ) → count_at self.new v p ≡ count_at self.old v p }
        ensures room { OnOk result (of_file.is_segmented item.now.form item.now.payload ≡ true
            → HasRoomToCount self.new item.now.version item.now.product) }
    {
        if item.is_segmented() {
            return self.make_room(item.version, item.product);
        }
        Ok(())
    }

    /// Makes room for a version and a product.
    fn make_room(&mut self, version: Moment, product: u16) -> Result<(), AllocError>
        ensures same { (v p : ℕ) → count_at self.new v p ≡ count_at self.old v p }
        ensures room { OnOk result (HasRoomToCount self.new version product) }
    {
        let name = (version.seconds(), product);
        if self.counts.contains_key(&name) {
            return Ok(());
        }
        let Ok(_) = self.counts.insert(name, 0) else {
            return Err(AllocError);
        };
        Ok(())
    }

    /// Counts an item, whose version and product there is room for, where it is sent in segments.
    pub(crate) fn count_item(&mut self, item: &SentItem)
        requires room { of_file.is_segmented item.now.form item.now.payload ≡ true
            → HasRoomToCount self.old item.now.version item.now.product }
        requires few { of_file.is_segmented item.now.form item.now.payload ≡ true
            → count_at self.old item.now.version item.now.product < file_numbers }
        ensures { (v p : ℕ) → count_at self.new v p ≡ count_at self.old v p
            + (if of_file.is_segmented item.now.form item.now.payload
            && (item.now.version == v) && (item.now.product == p) then 1 else 0) }
    {
        if item.is_segmented() {
            self.count(item.version, item.product);
        }
    }

    /// Counts one more of a version and a product that there is room for.
    fn count(&mut self, version: Moment, product: u16)
        requires room { HasRoomToCount self.old version product }
        requires few { count_at self.old version product < file_numbers }
        ensures { (v p : ℕ) → count_at self.new v p
            ≡ count_at self.old v p + (if version == v && product == p then 1 else 0) }
    {
        if let Some(count) = self.counts.get_mut(&(version.seconds(), product)) {
            *count += 1;
        }
    }

    /// Forgets the counts of each version that is over at a moment, by a life that none is longer than.
    pub(crate) fn forget(&mut self, moment: Moment, life: u64)
        ensures { (v p : ℕ) → count_at self.new v p
            ≡ (if nat_lt moment (v + life) then count_at self.old v p else 0) }
    {
        if let Some(over) = moment.seconds().checked_sub(life) {
            self.forget_up_to(over);
        }
    }

    /// Forgets the counts of each version that is not above this one.
    fn forget_up_to(&mut self, over: u64)
        ensures { (v p : ℕ) → count_at self.new v p
            ≡ (if nat_le v over then 0 else count_at self.old v p) }
    {
        for _turn in 0..self.counts.len() {
            if !self.is_first_forgotten(over) {
                return;
            }
        }
    }

    /// Forgets the count of the least version, where that is not above this one, and answers whether it did.
    fn is_first_forgotten(&mut self, over: u64) -> bool
        ensures above { (v p : ℕ) → nat_le v over ≡ false
            → count_at self.new v p ≡ count_at self.old v p }
        ensures one_less { OnTrue result (length self.new.counts.entries + 1
            ≡ length self.old.counts.entries) }
        ensures none { OnFalse result ((v p : ℕ) → nat_le v over ≡ true
            → count_at self.new v p ≡ 0) }
    {
        match self.counts.first_key_value() {
            Some((name, _)) if name.0 <= over => {}
            _ => return false,
        }
        let _ = self.counts.pop_first();
        true
    }
}
