//! Looks for the line that ends the table.
ghost use Rattle.std.specs.Prelude.{◌≡◌, ◌-◌, ◌≤◌, [], length, None};
ghost use Rattle.std.specs.Io.KnownBytes.{IsAtEnd};
ghost use Rattle.run_core.specs.Reading.{IsWithin, newline_in};
ghost use Rattle.run_core.specs.Run.{source_end};
ghost use Rattle.run_core.specs.Running.{IsSought};
ghost use Rattle.run_core.specs.Searched.{HasSearched, IsLooked, is_end_here};

use crate::input::{Input, RING_LIMIT, Read};
use fisb_wire::Source;

/// The greatest place of an input at which the line that ends its table may begin.
const TABLE_LIMIT: usize = 65_536;

/// How the search ended.
#[derive(Clone, Copy)]
pub(crate) enum TableEnd {
    /// A line `---` with its newline: how many bytes stand before it, and its number.
    Found { size: usize, number: u64 },
    /// The same without a newline, at the end of the input.
    Last { size: usize, number: u64 },
    /// The input ended, and has no such line.
    Missing,
    /// So many bytes have no such line that none can come.
    Long,
    /// A read failed.
    Failed,
}

/// Reads on until the line that ends the table was read, or there can be none. Nothing leaves the
/// ring.
pub(crate) fn search<S: Source>(source: &mut S, input: &mut Input) -> TableEnd
    requires within { IsWithin input.old }
    requires empty { input.old.ring.items ≡ [] }
    requires first { input.old.taken ≡ 0 }
    ensures searched { HasSearched (source_end (S.left source.old) (S.faults source.old))
        (source_end (S.left source.new) (S.faults source.new)) input.new result }
    ensures within { IsWithin input.new }
{
    let mut place = 0;
    let mut number = 1;
    let mut may_end = true;
    loop {
        if let Some(end) = input.next_end(place, may_end) {
            if is_end_at(input, place, end) {
                return TableEnd::Found {
                    size: place,
                    number,
                };
            }
            place = end + 1;
            number += 1;
            may_end = true;
            continue;
        }
        if input.ring.len() >= RING_LIMIT {
            return TableEnd::Long;
        }
        match input.read_on(source) {
            Read::Line => may_end = true,
            Read::More => may_end = false,
            Read::End => return last_line(input, place, number),
            Read::Failed => return TableEnd::Failed,
            Read::Full => return TableEnd::Long,
        }
    }
}

// The search at the end of the input: the bytes from `place` on are the last line.
fn last_line(input: &mut Input, place: usize, number: u64) -> TableEnd
    requires place { place ≤ length input.old.ring.items }
    ensures looked { IsLooked input.old.ring.items place number result }
    ensures same { input.new ≡ input.old }
{
    let end = input.ring.len();
    if is_end_at(input, place, end) {
        TableEnd::Last {
            size: place,
            number,
        }
    } else {
        TableEnd::Missing
    }
}

// Whether the line from `place` to `end` ends the table.
fn is_end_at(input: &mut Input, place: usize, end: usize) -> bool
    requires place { place ≤ end }
    requires end { end ≤ length input.old.ring.items }
    ensures test { result ≡ is_end_here input.old.ring.items place (end - place) }
    ensures same { input.new ≡ input.old }
{
    let bytes = input.ring.make_contiguous();
    is_end_in(bytes, place, end)
}

fn is_end_in(bytes: &[u8], place: usize, end: usize) -> bool
    requires place { place ≤ end }
    requires end { end ≤ length bytes.now }
    ensures { result ≡ is_end_here bytes.now place (end - place) }
{
    let line = bytes.split_at(place).1.split_at(end - place).0;
    place <= TABLE_LIMIT && line == b"---".as_slice()
}
