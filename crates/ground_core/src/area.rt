//! Where radar blocks lie that are numbered together.
ghost use Rattle.std.specs.Prelude.{◌≡◌};
ghost use Rattle.ground_core.specs.Update.{block_key};

use radar_core::BlockKey;

/// A product, a scale and a hemisphere: within these a number tells a block.
#[derive(Clone, Copy)]
pub(crate) struct Area {
    pub(crate) product: u16,
    pub(crate) scale: u8,
    pub(crate) south: bool,
}

impl Area {
    /// The key of the block of a number.
    pub(crate) fn key_of(&self, number: u32) -> BlockKey
        ensures { result ≡ block_key self.now.product self.now.scale self.now.south number }
    {
        BlockKey {
            product: self.product,
            scale: self.scale,
            south: self.south,
            number,
        }
    }
}
