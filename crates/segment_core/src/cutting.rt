//! The parts in which a payload is sent: how many there are, and the bytes of each.
ghost use Rattle.std.specs.Prelude.{◌≡◌, ℕ, ◌-◌, ◌<◌, ◌≤◌, List, [], length, take, drop};
ghost use Rattle.std.specs.List.{slice_index_or};
ghost use Rattle.segment_core.specs.File.{is_segmented, parts};

use crate::sizes::{segment_limit, whole_limit};
use fisb_time::TimeForm;

/// Whether a payload of so many bytes is sent in several parts.
pub fn is_segmented(form: TimeForm, size: usize) -> bool
    ensures { (payload : List ℕ) → length payload ≡ size → result ≡ is_segmented form payload }
{
    size > whole_limit(form)
}

/// In how many parts a payload of so many bytes is sent.
pub fn part_count(form: TimeForm, size: usize) -> u16
    requires { size ≤ 65536 }
    ensures count { (payload : List ℕ) → length payload ≡ size
        → result ≡ length (parts form payload) }
    ensures some { 1 ≤ result }
    ensures few { result < 512 }
{
    if !is_segmented(form, size) {
        return 1;
    }
    let limit = segment_limit(form);
    let count = (size + (limit - 1)) / limit;
    count as u16
}

/// The bytes of a part, by its number from 1 on.
pub fn part_at<'a>(form: TimeForm, payload: &'a [u8], number: u16) -> &'a [u8]
    requires some { 1 ≤ number }
    requires most { number ≤ length (parts form payload.now) }
    ensures { result.now ≡ slice_index_or (parts form payload.now) (number - 1) [] }
{
    if !is_segmented(form, payload.len()) {
        return payload;
    }
    let limit = segment_limit(form);
    part_from(payload, usize::from(number - 1) * limit, limit)
}

/// So many bytes from a place on, or what is left there.
fn part_from(payload: &[u8], start: usize, limit: usize) -> &[u8]
    requires { start ≤ length payload.now }
    ensures { result.now ≡ take limit (drop start payload.now) }
{
    let (_, rest) = payload.split_at(start);
    let (part, _) = rest.split_at(rest.len().min(limit));
    part
}
