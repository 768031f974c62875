//! A payload, cut into the pieces of which each is sent in an APDU of its own.
ghost use Rattle.std.specs.Prelude.{◌≡◌, ◌<◌, ◌≤◌, IsTrue, length};
ghost use Rattle.apdu_core.specs.Apdu.{file_numbers};
ghost use Rattle.apdu_core.specs.Views.{apdu_view};
ghost use Rattle.fisb_time.specs.TimeForm.{shows};
ghost use Rattle.segment_core.specs.File.{File, apdu_of_segment, most_segments, parts, parts_of};
ghost use Rattle.segment_core.specs.File.{segmentation_of};

use crate::cutting::{is_segmented, part_at, part_count};
use apdu_core::{Apdu, Seg};
use fisb_time::{Moment, TimeForm, fields_of};
use std::marker::Model;

/// The pieces of a payload, lent out of it one by one. A contract sees them as the file.
#[derive(Debug, Drop)]
pub struct Pieces<'a> {
    product: u16,
    form: TimeForm,
    version: Moment,
    file: u16,
    payload: &'a [u8],
}

impl<'a> Model for Pieces<'a> {
    ghost use Rattle.std.specs.Prelude.{◌≤◌, IsTrue, length};
    ghost use Rattle.fisb_time.specs.TimeForm.{shows};
    ghost use Rattle.segment_core.specs.File.{File, most_segments, parts};

    ghost Value = { File };

    ghost view = { λ pieces. record {
      product = pieces.product;
      form = pieces.form;
      version = pieces.version;
      number = pieces.file;
      payload = pieces.payload.now;
    } };

    ghost invariant = { λ pieces. IsTrue (shows pieces.form pieces.version)
        × (length (parts pieces.form pieces.payload.now) ≤ most_segments) };
}

/// Cuts a payload of a product and a version, which is sent under a file number where it takes
/// several pieces.
pub fn split<'a>(
    product: u16,
    form: TimeForm,
    version: Moment,
    file: u16,
    payload: &'a [u8],
) -> Pieces<'a>
    requires product { product < 2048 }
    requires shown { IsTrue (shows form version) }
    requires number { file < file_numbers }
    requires few { length (parts form payload.now) ≤ most_segments }
    ensures { result ≡ record {
      product = product;
      form = form;
      version = version;
      number = file;
      payload = payload.now;
    } }
{
    Pieces {
        product,
        form,
        version,
        file,
        payload,
    }
}

impl<'a> Pieces<'a> {
    /// How many pieces there are, 1 to 64.
    pub fn count(&self) -> u16
        ensures value { result ≡ length (parts_of self.now) }
        ensures few { result ≤ most_segments }
    {
        part_count(self.form, self.payload.len())
    }

    /// The APDU of a piece, by its number from 1 to `count`.
    pub fn apdu(&self, number: u16) -> Apdu<'a>
        requires some { 1 ≤ number }
        requires most { number ≤ length (parts_of self.now) }
        ensures { apdu_view result ≡ apdu_of_segment self.now number }
    {
        Apdu {
            product: self.product,
            form: self.form,
            time: fields_of(self.form, self.version),
            seg: seg_of(self.form, self.file, self.payload, number),
            payload: part_at(self.form, self.payload, number),
        }
    }
}

/// The fields that tell which piece of several this one is.
fn seg_of(form: TimeForm, file: u16, payload: &[u8], number: u16) -> Option<Seg>
    requires { length (parts form payload.now) ≤ most_segments }
    ensures { (f : File) → f.form ≡ form → f.number ≡ file → f.payload ≡ payload.now
        → result ≡ segmentation_of f number }
{
    if is_segmented(form, payload.len()) {
        Some(Seg {
            file,
            count: part_count(form, payload.len()),
            number,
        })
    } else {
        None
    }
}
