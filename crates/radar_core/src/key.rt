//! What names a block.
ghost use Rattle.std.specs.Prelude.{◌≡◌, ◌+◌, ◌*◌, ◌<◌};
ghost use Rattle.std.specs.Cmp.{partial_order_from_own_ties, partial_order_from_total};
ghost use Rattle.std.specs.Cmp.Rules.{comparing};
ghost use Rattle.std.specs.Ordering.{as_partial_cmp};
ghost use Rattle.std.proofs.Common.{rules};
ghost use Rattle.radar_core.specs.Keys.{block_key_cmp, block_keys_total, key_number};

use std::cmp::Ordering;

/// The first block at high latitudes: from it on no empty record names a block (RTCA DO-358).
pub const FIRST_HIGH: u32 = 405_000;

/// What names a block. Keys stand in the order of product, scale, north before south, number.
/// The fields stand the lowest first, so that in memory they mostly are the number by which keys
/// are compared.
#[derive(Clone, Copy, Debug, PartialEq, Eq)]
pub struct BlockKey {
    /// The number of the block, below 2^20.
    pub number: u32,
    /// Whether the block lies south of the equator.
    pub south: bool,
    /// The scale, 0 to 2.
    pub scale: u8,
    /// The product: 63 for the region, 64 for the whole country.
    pub product: u16,
}

impl BlockKey {
    /// The fields as one number, in the order of keys, so that two keys are compared at once.
    fn as_number(self) -> u64
        ensures number { result ≡ key_number self }
        ensures scale { self.scale < 256 }
        ensures fits { self.number < 4294967296 }
    {
        let area = (u64::from(self.product) * 256 + u64::from(self.scale)) * 256;
        (area + u64::from(self.south)) * 4_294_967_296 + u64::from(self.number)
    }
}

impl Ord for BlockKey {
    ghost cmp = { block_key_cmp };

    ghost total = { block_keys_total };

    ghost matches_partial_cmp = { Prim.search (comparing, rules) };

    ghost matches_eq = { Prim.search (comparing, rules) };

    fn cmp(&self, other: &BlockKey) -> Ordering {
        self.as_number().cmp(&other.as_number())
    }
}

impl PartialOrd for BlockKey {
    ghost partial_cmp = { as_partial_cmp block_key_cmp };

    ghost laws = { partial_order_from_own_ties
        (partial_order_from_total block_keys_total) (Prim.search (comparing, rules)) };

    fn partial_cmp(&self, other: &BlockKey) -> Option<Ordering> {
        Some(self.cmp(other))
    }
}

/// The order of two keys, in the words of its definition.
pub fn order_of_block_keys(one: &BlockKey, other: &BlockKey) -> Ordering
    ensures { result ≡ block_key_cmp one.now other.now }
{
    one.cmp(other)
}
