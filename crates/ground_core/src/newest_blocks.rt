//! The newest version of each radar block, until its life is over.
ghost use Rattle.std.specs.Prelude.{◌≡◌, ℕ, ◌&&◌, ◌==◌, if◌then◌else◌, option_map, List, OnOk};
ghost use Rattle.std.specs.Prelude.{Some, None, IsSome, map, IfSome, IfNone, Option};
ghost use Rattle.std.specs.Bool.{OnTrue};
ghost use Rattle.std.specs.List.{list_any};
ghost use Rattle.std.specs.Ordering.{is_eq};
ghost use Rattle.list_members.specs.Membership.{IsIn};
ghost use Rattle.radar_core.specs.declared.key.BlockKey.{BlockKey as Block};
ghost use Rattle.radar_core.specs.Keys.{block_key_cmp};
ghost use Rattle.ground_core.specs.Refusal.{GiveRefusal, age_refusal};

use crate::area::Area;
use crate::fault::GiveFault;
use crate::item_keys::BlockNumbers;
use crate::newest::Given;
use fisb_time::Moment;
use radar_core::BlockKey;
use std::alloc::{AllocError, Global};
use std::collections::BTreeMap;

/// What was given last under the key of each block; `None` where room was made and nothing was given.
#[derive(Drop)]
pub(crate) struct NewestBlocks {
    given: BTreeMap<BlockKey, Option<Given>>,
}

impl NewestBlocks {
    ghost use Rattle.ground_core.specs.Views.{latest_block, given_view, area_keys};
    ghost use Rattle.ground_core.specs.Rooms.{HasRoom, HaveRoom, are_among};
    ghost use Rattle.ground_core.specs.Piece.{Latest, while_living, lives_as};
    ghost use Rattle.ground_core.specs.Told.{IsTold, latest_version};

    /// Nothing was given.
    pub(crate) fn new(alloc: Global) -> NewestBlocks
        ensures { (key : Block) → latest_block result key ≡ None }
    {
        NewestBlocks {
            given: BTreeMap::new(alloc),
        }
    }

    /// What was given last under a key.
    pub(crate) fn of(&self, key: &BlockKey) -> Option<Given>
        ensures { option_map given_view result ≡ latest_block self.now key.now }
    {
        match self.given.get(key) {
            Some(given) => *given,
            None => None,
        }
    }

    /// The version that was given last under a key.
    pub(crate) fn version_of(&self, key: &BlockKey) -> Option<Moment>
        ensures { result ≡ latest_version (latest_block self.now key.now) }
    {
        match self.of(key) {
            Some(given) => Some(given.version),
            None => None,
        }
    }

    /// Makes room under a key. What was given stays.
    fn make_room(&mut self, key: &BlockKey) -> Result<(), AllocError>
        ensures same { (other : Block) → latest_block self.new other ≡ latest_block self.old other }
        ensures stays { (other : Block) → HasRoom self.old other → HasRoom self.new other }
        ensures room { OnOk result (HasRoom self.new key.now) }
    {
        if self.given.contains_key(key) {
            return Ok(());
        }
        let Ok(_) = self.given.insert(*key, None) else {
            return Err(AllocError);
        };
        Ok(())
    }

    /// Makes room under the keys of blocks. What was given stays.
    pub(crate) fn reserve(&mut self, blocks: &BlockNumbers) -> Result<(), AllocError>
        ensures same { (other : Block) → latest_block self.new other ≡ latest_block self.old other }
        ensures stays { (other : Block) → HasRoom self.old other → HasRoom self.new other }
        ensures room { OnOk result (HaveRoom self.new blocks.now) }
    {
        for number in &blocks.numbers {
            let Ok(()) = self.make_room(&blocks.area.key_of(*number)) else {
                return Err(AllocError);
            };
        }
        Ok(())
    }

    /// Puts what was given last under a key, for which there is room.
    fn put_one(&mut self, key: &BlockKey, given: &Given)
        requires { HasRoom self.old key.now }
        ensures put { (other : Block) → latest_block self.new other
            ≡ (if is_eq (block_key_cmp key.now other) then Some (given_view given.now)
            else latest_block self.old other) }
        ensures stays { (other : Block) → HasRoom self.old other → HasRoom self.new other }
    {
        if let Some(kept) = self.given.get_mut(key) {
            *kept = Some(*given);
        }
    }

    /// Puts what was given last under the keys of blocks, for which there is room.
    pub(crate) fn put(&mut self, blocks: &BlockNumbers, given: &Given)
        requires { HaveRoom self.old blocks.now }
        ensures put { (other : Block) → latest_block self.new other
            ≡ (if are_among blocks.now.area blocks.now.numbers.items other
            then Some (given_view given.now) else latest_block self.old other) }
        ensures stays { (other : Block) → HasRoom self.old other → HasRoom self.new other }
    {
        for number in &blocks.numbers {
            self.put_one(&blocks.area.key_of(*number), given);
        }
    }

    /// Forgets what was given last under a key, where the life of that is over.
    fn forget_one(&mut self, key: &BlockKey, moment: Moment)
        ensures { (other : Block) → latest_block self.new other
            ≡ (if is_eq (block_key_cmp key.now other)
            then while_living moment (latest_block self.old other)
            else latest_block self.old other) }
    {
        if let Some(given) = self.of(key) {
            if given.until <= moment.seconds() {
                let _ = self.given.remove(key);
            }
        }
    }

    /// Forgets what was given last under the keys of blocks, where the life of that is over.
    pub(crate) fn forget(&mut self, blocks: &BlockNumbers, moment: Moment)
        ensures { (other : Block) → latest_block self.new other
            ≡ (if are_among blocks.now.area blocks.now.numbers.items other
            then while_living moment (latest_block self.old other)
            else latest_block self.old other) }
    {
        for number in &blocks.numbers {
            self.forget_one(&blocks.area.key_of(*number), moment);
        }
    }

    /// Whether what was given last under a key lives and has a serial.
    fn is_live(&self, key: &BlockKey, serial: u64, moment: Moment) -> bool
        ensures { result ≡ lives_as moment serial (latest_block self.now key.now) }
    {
        match self.of(key) {
            Some(given) => moment.seconds() < given.until && given.serial == serial,
            None => false,
        }
    }

    /// Whether for one of these blocks what was given last lives and has a serial.
    pub(crate) fn is_any_live(&self, blocks: &BlockNumbers, serial: u64, moment: Moment) -> bool
        ensures { result ≡ list_any (λ key. lives_as moment serial (latest_block self.now key))
            (area_keys blocks.now.area blocks.now.numbers.items) }
    {
        for number in &blocks.numbers {
            if self.is_live(&blocks.area.key_of(*number), serial, moment) {
                return true;
            }
        }
        false
    }

    /// Why a version may not be given for these numbers of an area: the first of them was given with one that is not below it.
    pub(crate) fn age_fault(
        &self,
        area: &Area,
        numbers: &[u32],
        version: Moment,
    ) -> Option<GiveFault>
        ensures tells { (later : Option GiveRefusal) → IfSome result (IsTold (age_refusal version
            (map (λ key. latest_version (latest_block self.now key))
            (area_keys area.now numbers.now)) later)) }
        ensures passes { (later : Option GiveRefusal) → IfNone result (age_refusal version
            (map (λ key. latest_version (latest_block self.now key))
            (area_keys area.now numbers.now)) later ≡ later) }
    {
        for number in numbers {
            let kept = self.version_of(&area.key_of(*number));
            if let Some(fault) = crate::judging::age_fault(version, kept) {
                return Some(fault);
            }
        }
        None
    }
}
