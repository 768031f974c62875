//! An item that is sent.
ghost use Rattle.std.specs.Prelude.{◌≡◌, ◌<◌, ◌≤◌, length, IsTrue};
ghost use Rattle.fisb_time.specs.TimeForm.{shows};
ghost use Rattle.apdu_core.specs.Apdu.{file_numbers};
ghost use Rattle.segment_core.specs.File.{parts};
ghost use Rattle.segment_core.specs.File as of_file;

use crate::item_keys::ItemKeys;
use fisb_time::{Moment, TimeForm};
use fisb_wire::Bytes;
use segment_core::{is_segmented, part_at};

/// What is sent of an update: its keys, its version, the end of its life, and its payload, which is cut into segments where
/// it is longer than one APDU carries.
#[derive(Drop)]
pub(crate) struct SentItem {
    /// How many items were given before it.
    pub(crate) serial: u64,
    pub(crate) keys: ItemKeys,
    pub(crate) version: Moment,
    /// The second at which it is no longer sent.
    pub(crate) until: u64,
    pub(crate) product: u16,
    pub(crate) form: TimeForm,
    /// Its file number, 0 where it is sent whole.
    pub(crate) file: u16,
    /// The number of its segments.
    pub(crate) count: u16,
    pub(crate) payload: Bytes,
    ghost shown: { IsTrue (shows form version) },
    ghost known: { product < 2048 },
    ghost numbered: { file < file_numbers },
    ghost counted: { count ≡ length (parts form payload) },
    ghost some: { 1 ≤ count },
    ghost few: { count < 512 },
}

impl SentItem {
    /// Whether it is sent in segments.
    pub(crate) fn is_segmented(&self) -> bool
        ensures { result ≡ of_file.is_segmented self.now.form self.now.payload }
    {
        is_segmented(self.form, self.payload.len())
    }

    /// The part of the payload that a segment carries, numbered from 1.
    pub(crate) fn part(&self, number: u16) -> &[u8]
        requires { 1 ≤ number × (number ≤ self.now.count) }
        ensures { result.now ≡ of_file.part_of (record {
          product = self.now.product;
          form = self.now.form;
          version = self.now.version;
          number = self.now.file;
          payload = self.now.payload;
        }) number }
    {
        part_at(self.form, self.payload.all(), number)
    }
}
