//! The keys of an item.
ghost use Rattle.std.specs.Prelude.{◌≡◌, IfOk};

use crate::area::Area;
use crate::numbered_key::NumberedKey;
use std::alloc::{AllocError, Global};

/// The blocks that one record names: their numbers in an area.
#[derive(Drop)]
pub(crate) struct BlockNumbers {
    pub(crate) area: Area,
    pub(crate) numbers: Vec<u32>,
}

impl BlockNumbers {
    /// The blocks of these numbers.
    pub(crate) fn new(
        alloc: Global,
        area: Area,
        numbers: &[u32],
    ) -> Result<BlockNumbers, AllocError>
        ensures area { IfOk result (λ made. made.area ≡ area) }
        ensures numbers { IfOk result (λ made. made.numbers.items ≡ numbers.now) }
    {
        Ok(BlockNumbers {
            area,
            numbers: Vec::from_slice(alloc, numbers)?,
        })
    }
}

/// The keys of an item: that of a report, or those of blocks.
#[derive(Drop)]
pub(crate) enum ItemKeys {
    OfReport(NumberedKey),
    OfBlocks(BlockNumbers),
}
