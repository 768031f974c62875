//! The newest version of each key, until its life is over.
ghost use Rattle.std.specs.Prelude.{◌≡◌, ℕ, if◌then◌else◌, option_map, IfOk, OnOk, OnErr, Some};
ghost use Rattle.std.specs.Prelude.{None};
ghost use Rattle.std.specs.List.{list_any};
ghost use Rattle.picture_core.specs.Key.{Key, text_report, same_key};
ghost use Rattle.ground_core.specs.NumberedKeys.{report_key};
ghost use Rattle.radar_core.specs.declared.key.BlockKey.{BlockKey as Block};
ghost use Rattle.ground_core.specs.Views.{given_view};
ghost use Rattle.ground_core.specs.Putting.{latest_of_sent};

use crate::item::SentItem;
use crate::item_keys::{BlockNumbers, ItemKeys};
use crate::newest_blocks::NewestBlocks;
use crate::numbered_key::NumberedKey;
use fisb_time::Moment;
use picture_core::laws::keys_are_ordered;
use std::alloc::{AllocError, Global};
use std::collections::BTreeMap;
use std::rc::Rc;

/// What was given last under a key: its version, its serial and the end of its life.
#[derive(Clone, Copy)]
pub(crate) struct Given {
    pub(crate) version: Moment,
    pub(crate) serial: u64,
    /// The second at which it is no longer sent.
    pub(crate) until: u64,
}

/// What is kept of an item under each of its keys.
pub(crate) fn given_of(item: &SentItem) -> Given
    ensures { given_view result ≡ latest_of_sent item.now }
{
    Given {
        version: item.version,
        serial: item.serial,
        until: item.until,
    }
}

/// What was given last under each key.
#[derive(Drop)]
pub(crate) struct Newest {
    reports: BTreeMap<NumberedKey, Given>,
    pub(crate) blocks: NewestBlocks,
}

impl Newest {
    ghost use Rattle.ground_core.specs.Views.{latest_at, given_view, keys_in, block_keys};
    ghost use Rattle.ground_core.specs.Rooms.{HaveRoom, HaveRoomFor, HaveRoomForAll, IsOfBlocks};
    ghost use Rattle.ground_core.specs.Rooms.{HasRoom};
    ghost use Rattle.ground_core.specs.Putting.{AreWhole, values_of, latest_put, is_among};
    ghost use Rattle.ground_core.specs.Piece.{while_living, lives_as};
    ghost use Rattle.ground_core.specs.Told.{latest_version};

    /// Nothing was given.
    pub(crate) fn new(alloc: Global) -> Newest
        ensures { (key : Key) → latest_at result key ≡ None }
    {
        Newest {
            reports: BTreeMap::new(alloc),
            blocks: NewestBlocks::new(alloc),
        }
    }

    /// What was given last under a report's key.
    pub(crate) fn of(&self, key: &NumberedKey) -> Option<Given>
        ensures { option_map given_view result
            ≡ latest_at self.now (text_report (report_key key.now)) }
    {
        match self.reports.get(key) {
            Some(given) => Some(*given),
            None => None,
        }
    }

    /// The version that was given last under a report's key.
    pub(crate) fn version_of(&self, key: &NumberedKey) -> Option<Moment>
        ensures { result ≡ latest_version (latest_at self.now (text_report (report_key key.now))) }
    {
        match self.of(key) {
            Some(given) => Some(given.version),
            None => None,
        }
    }

    /// Whether an item of these keys and this serial is live: for one of the keys it was given last, and its life is not
    /// over.
    pub(crate) fn is_live(&self, keys: &ItemKeys, serial: u64, moment: Moment) -> bool
        ensures { result ≡ list_any (λ key. lives_as moment serial (latest_at self.now key))
            (keys_in keys.now) }
    {
        match keys {
            ItemKeys::OfReport(key) => self.is_report_live(key, serial, moment),
            ItemKeys::OfBlocks(blocks) => self.are_blocks_live(blocks, serial, moment),
        }
    }

    /// The same of blocks.
    fn are_blocks_live(&self, blocks: &BlockNumbers, serial: u64, moment: Moment) -> bool
        ensures { result ≡ list_any (λ key. lives_as moment serial (latest_at self.now key))
            (block_keys blocks.now) }
    {
        self.blocks.is_any_live(blocks, serial, moment)
    }

    /// The same of a report.
    fn is_report_live(&self, key: &NumberedKey, serial: u64, moment: Moment) -> bool
        ensures { result ≡ lives_as moment serial
            (latest_at self.now (text_report (report_key key.now))) }
    {
        match self.of(key) {
            Some(given) => moment.seconds() < given.until && given.serial == serial,
            None => false,
        }
    }

    /// Makes room under the keys of blocks. What was given stays.
    pub(crate) fn reserve(&mut self, keys: &ItemKeys) -> Result<(), AllocError>
        ensures same { (other : Key) → latest_at self.new other ≡ latest_at self.old other }
        ensures stays { (other : Block) → HasRoom self.old.blocks other
            → HasRoom self.new.blocks other }
        ensures room { OnOk result (IsOfBlocks keys.now → HaveRoomFor self.new keys.now) }
    {
        match keys {
            ItemKeys::OfReport(_) => Ok(()),
            ItemKeys::OfBlocks(blocks) => self.blocks.reserve(blocks),
        }
    }

    /// Puts what was given last under the keys of blocks, for which there is room.
    pub(crate) fn put_reserved(&mut self, keys: &ItemKeys, given: &Given)
        requires { HaveRoomFor self.old keys.now }
        ensures put { (other : Key) → latest_at self.new other
            ≡ (if is_among (keys_in keys.now) other
            then Some (given_view given.now) else latest_at self.old other) }
        ensures stays { (other : Block) → HasRoom self.old.blocks other
            → HasRoom self.new.blocks other }
    {
        if let ItemKeys::OfBlocks(blocks) = keys {
            self.put_blocks_reserved(blocks, given);
        }
    }

    /// The same of blocks.
    fn put_blocks_reserved(&mut self, blocks: &BlockNumbers, given: &Given)
        requires { HaveRoom self.old.blocks blocks.now }
        ensures put { (other : Key) → latest_at self.new other
            ≡ (if is_among (block_keys blocks.now) other
            then Some (given_view given.now) else latest_at self.old other) }
        ensures stays { (other : Block) → HasRoom self.old.blocks other
            → HasRoom self.new.blocks other }
    {
        self.blocks.put(blocks, given);
    }

    /// Makes room under the keys of items of blocks. What was given stays.
    pub(crate) fn reserve_all(&mut self, items: &[Rc<SentItem>]) -> Result<(), AllocError>
        ensures same { (other : Key) → latest_at self.new other ≡ latest_at self.old other }
        ensures room { OnOk result (AreWhole (values_of items.now)
            → HaveRoomForAll self.new (values_of items.now)) }
    {
        for item in items {
            let Ok(()) = self.reserve(&item.keys) else {
                return Err(AllocError);
            };
        }
        Ok(())
    }

    /// Puts items of blocks under their keys, one after another, for which there is room.
    pub(crate) fn put_all(&mut self, items: &[Rc<SentItem>])
        requires { HaveRoomForAll self.old (values_of items.now) }
        ensures { (other : Key) → latest_at self.new other
            ≡ latest_put other (values_of items.now) (latest_at self.old other) }
    {
        for item in items {
            self.put_reserved(&item.keys, &given_of(item));
        }
    }

    /// Puts what was given last under the keys of an item.
    pub(crate) fn put(&mut self, keys: &ItemKeys, given: &Given) -> Result<(), AllocError>
        ensures ok { OnOk result ((other : Key) → latest_at self.new other
            ≡ (if is_among (keys_in keys.now) other
            then Some (given_view given.now) else latest_at self.old other)) }
        ensures err { OnErr result ((other : Key)
            → latest_at self.new other ≡ latest_at self.old other) }
    {
        match keys {
            ItemKeys::OfReport(key) => self.put_report(key, given),
            ItemKeys::OfBlocks(blocks) => self.put_blocks(blocks, given),
        }
    }

    /// The same of a report.
    fn put_report(&mut self, key: &NumberedKey, given: &Given) -> Result<(), AllocError>
        ensures ok { OnOk result ((other : Key) → latest_at self.new other
            ≡ (if same_key (text_report (report_key key.now)) other
            then Some (given_view given.now) else latest_at self.old other)) }
        ensures err { OnErr result ((other : Key)
            → latest_at self.new other ≡ latest_at self.old other) }
    {
        keys_are_ordered();
        let key = key.copy()?;
        let Ok(_) = self.reports.insert(key, *given) else {
            return Err(AllocError);
        };
        Ok(())
    }

    /// The same of blocks.
    fn put_blocks(&mut self, blocks: &BlockNumbers, given: &Given) -> Result<(), AllocError>
        ensures ok { OnOk result ((other : Key) → latest_at self.new other
            ≡ (if is_among (block_keys blocks.now) other
            then Some (given_view given.now) else latest_at self.old other)) }
        ensures err { OnErr result ((other : Key)
            → latest_at self.new other ≡ latest_at self.old other) }
    {
        let Ok(()) = self.blocks.reserve(blocks) else {
            return Err(AllocError);
        };
        self.blocks.put(blocks, given);
        Ok(())
    }

    /// Forgets what was given last under the keys of an item, where the life of that is over.
    pub(crate) fn forget(&mut self, keys: &ItemKeys, moment: Moment)
        ensures { (other : Key) → latest_at self.new other
            ≡ (if is_among (keys_in keys.now) other
            then while_living moment (latest_at self.old other)
            else latest_at self.old other) }
    {
        match keys {
            ItemKeys::OfReport(key) => self.forget_report(key, moment),
            ItemKeys::OfBlocks(blocks) => self.forget_blocks(blocks, moment),
        }
    }

    /// The same of blocks.
    fn forget_blocks(&mut self, blocks: &BlockNumbers, moment: Moment)
        ensures { (other : Key) → latest_at self.new other
            ≡ (if is_among (block_keys blocks.now) other
            then while_living moment (latest_at self.old other)
            else latest_at self.old other) }
    {
        self.blocks.forget(blocks, moment);
    }

    /// The same of a report.
    fn forget_report(&mut self, key: &NumberedKey, moment: Moment)
        ensures { (other : Key) → latest_at self.new other
            ≡ (if same_key (text_report (report_key key.now)) other
            then while_living moment (latest_at self.old other)
            else latest_at self.old other) }
    {
        keys_are_ordered();
        if let Some(given) = self.of(key) {
            if given.until <= moment.seconds() {
                let _ = self.reports.remove(key);
            }
        }
    }
}
