//! The pieces that are held, and what a segment brings among them.
ghost use Rattle.std.specs.Prelude.{◌≡◌, ℕ, ◌+◌, ◌-◌, ◌^◌, ◌<◌, ◌≤◌, List, IfOk, OnErr, None, map};
ghost use Rattle.std.specs.Prelude.{is_some, length};
ghost use Rattle.undo_map.specs.Ends.{HasLeft, all_places, due_places, place_count};
ghost use Rattle.std.specs.List.{range_with_len};
ghost use Rattle.std.specs.Option.{option_copied};
ghost use Rattle.segment_core.specs.Bound.{AreNamedOnce};
ghost use Rattle.segment_core.specs.File.{most_segments};
ghost use Rattle.segment_core.specs.HeldPieces.{arrival_answer, bytes_at, held_after, held_answer};
ghost use Rattle.segment_core.specs.HeldPieces.{held_bytes, held_with};
ghost use Rattle.segment_core.specs.HeldPieces.{joined_held, others_held};
ghost use Rattle.segment_core.specs.Kept.{IsNumbered, kept_under, with_number};
ghost use Rattle.segment_core.specs.Ends.{PiecesHavePlaces};
ghost use Rattle.segment_core.specs.Store.{FitsFile, is_in_life};
ghost use Rattle.segment_core.specs.Store.{live_pieces, longest_of};
ghost use Rattle.segment_core.specs.Views.{arrival_view};
ghost use Rattle.segment_core.specs.declared.piece_name.PieceName.{PieceName};

use crate::arrived::{Arrived, Longest, Taken};
use crate::piece_name::PieceName;
use fisb_time::Moment;
use fisb_wire::Bytes;
use life_table::{CONUS_RADAR, REGIONAL_RADAR};
use std::alloc::{AllocError, Global};
use undo_map::laws::{none_is_over, others_have_places};
use undo_map::{EndQueue, UndoMap};
use uplink_frame::laws::stations_are_told;

/// Takes an arrival that is not stale: what it brings, and what is held then.
pub(crate) fn take_live(
    alloc: Global,
    longest: &Longest,
    pieces: &mut UndoMap<PieceName, Option<Bytes>>,
    ends: &mut EndQueue<PieceName>,
    arrived: &Arrived<'_>,
) -> Result<Taken, AllocError>
    requires { FitsFile arrived.now.seg }
    ensures answer { IfOk result (λ taken. taken ≡ arrival_answer pieces.old.entries
        (arrival_view arrived.now) arrived.now.seg) }
    ensures pieces { IfOk result (λ _. (other : PieceName) → kept_under pieces.new.entries other
        ≡ held_after pieces.old.entries (arrival_view arrived.now)
        arrived.now.seg other) }
    ensures mark { pieces.new.mark ≡ pieces.old.mark }
    ensures err { OnErr result (pieces.new ≡ pieces.old) }
    ensures kept { ends.new.places ≡ ends.old.places }
    ensures placed { PiecesHavePlaces longest.now (all_places ends.old) pieces.old.entries
        → PiecesHavePlaces longest.now (all_places ends.new) pieces.new.entries }
    ensures few { place_count ends.new + length pieces.old.entries
        ≤ place_count ends.old + length pieces.new.entries }
{
    match arrived.seg {
        None => {
            let whole = copy_of(alloc, arrived.payload)?;
            Ok(Taken::Whole(whole))
        }
        Some(seg) => {
            let name = PieceName::of(arrived, seg);
            let taken = take_piece(alloc, longest, pieces, ends, name, arrived.payload)?;
            Ok(taken)
        }
    }
}

/// Takes a segment among the pieces: what it brings, and what is held then.
fn take_piece(
    alloc: Global,
    longest: &Longest,
    pieces: &mut UndoMap<PieceName, Option<Bytes>>,
    ends: &mut EndQueue<PieceName>,
    name: PieceName,
    payload: &[u8],
) -> Result<Taken, AllocError>
    requires numbered { IsNumbered name }
    requires few { name.count ≤ most_segments }
    ensures answer { IfOk result (λ taken. taken
        ≡ held_answer pieces.old.entries name payload.now) }
    ensures pieces { IfOk result (λ _. (other : PieceName) →
        kept_under pieces.new.entries other ≡ held_with pieces.old.entries name payload.now other) }
    ensures mark { pieces.new.mark ≡ pieces.old.mark }
    ensures err { OnErr result (pieces.new ≡ pieces.old) }
    ensures kept { ends.new.places ≡ ends.old.places }
    ensures placed { PiecesHavePlaces longest.now (all_places ends.old) pieces.old.entries
        → PiecesHavePlaces longest.now (all_places ends.new) pieces.new.entries }
    ensures few { place_count ends.new + length pieces.old.entries
        ≤ place_count ends.old + length pieces.new.entries }
{
    stations_are_told();
    if is_held(pieces, &name) {
        return Ok(Taken::Again);
    }
    ends.reserve()?;
    let end = end_of(longest, name.product, name.version);
    if are_others_held(pieces, &name) {
        let whole = join_pieces(alloc, pieces, &name, payload)?;
        pieces.write_all(numbers_alone(alloc, &name)?)?;
        ends.add(end, name);
        Ok(Taken::Whole(Bytes::of(whole)))
    } else {
        let bytes = copy_of(alloc, payload)?;
        pieces.write(name, Some(bytes))?;
        ends.add(end, name);
        Ok(Taken::Waits)
    }
}

/// A list of the same bytes.
fn copy_of(alloc: Global, payload: &[u8]) -> Result<Bytes, AllocError>
    ensures { IfOk result (λ bytes. bytes ≡ payload.now) }
{
    let mut bytes = Vec::new(alloc);
    bytes.extend_from_slice(payload)?;
    Ok(Bytes::of(bytes))
}

/// What is held under a name: its piece, or the name alone.
fn kept_under<'a>(
    pieces: &'a UndoMap<PieceName, Option<Bytes>>,
    name: &PieceName,
) -> Option<&'a Option<Bytes>>
    ensures { option_copied result ≡ kept_under pieces.now.entries name.now }
{
    pieces.get(name)
}

/// Whether a name is held, with its piece or alone.
fn is_held(pieces: &UndoMap<PieceName, Option<Bytes>>, name: &PieceName) -> bool
    ensures { result ≡ is_some (kept_under pieces.now.entries name.now) }
{
    kept_under(pieces, name).is_some()
}

/// Whether the other segments of the file are held.
fn are_others_held(pieces: &UndoMap<PieceName, Option<Bytes>>, name: &PieceName) -> bool
    ensures { result ≡ others_held pieces.now.entries name.now }
{
    for index in 0..name.count {
        let number = index + 1;
        if number != name.number && !is_held(pieces, &name.with_number(number)) {
            return false;
        }
    }
    true
}

/// The bytes of the piece of this name; none where there is no piece.
fn bytes_of<'a>(pieces: &'a UndoMap<PieceName, Option<Bytes>>, name: &PieceName) -> &'a [u8]
    ensures { result.now ≡ held_bytes (kept_under pieces.now.entries name.now) }
{
    match kept_under(pieces, name) {
        Some(Some(bytes)) => bytes.all(),
        Some(None) => &[],
        None => &[],
    }
}

/// The bytes of a number of the file, where this piece has its own.
fn bytes_at<'a>(
    pieces: &'a UndoMap<PieceName, Option<Bytes>>,
    name: &PieceName,
    payload: &'a [u8],
    number: u16,
) -> &'a [u8]
    ensures { result.now ≡ bytes_at pieces.now.entries name.now payload.now number }
{
    if number == name.number {
        payload
    } else {
        bytes_of(pieces, &name.with_number(number))
    }
}

/// The pieces of the file in the order of their numbers, with this one.
fn join_pieces(
    alloc: Global,
    pieces: &UndoMap<PieceName, Option<Bytes>>,
    name: &PieceName,
    payload: &[u8],
) -> Result<Vec<u8>, AllocError>
    ensures { IfOk result (λ bytes. bytes.items
        ≡ joined_held pieces.now.entries name.now payload.now) }
{
    let mut bytes = Vec::new(alloc);
    for index in 0..name.count {
        bytes.extend_from_slice(bytes_at(pieces, name, payload, index + 1))?;
    }
    Ok(bytes)
}

/// The names of all segments of the file, without pieces.
fn numbers_alone(
    alloc: Global,
    name: &PieceName,
) -> Result<Vec<(PieceName, Option<Bytes>)>, AllocError>
    ensures { IfOk result (λ pairs. pairs.items
        ≡ map (λ number. (with_number name.now number, None)) (range_with_len 1 name.now.count)) }
{
    let mut pairs = Vec::new(alloc);
    for index in 0..name.count {
        pairs.push((name.with_number(index + 1), None))?;
    }
    Ok(pairs)
}

/// The longest life of a product.
fn longest_of(longest: &Longest, product: u16) -> u64
    ensures { result ≡ longest_of longest.now product }
{
    match product {
        REGIONAL_RADAR => longest.regional,
        CONUS_RADAR => longest.conus,
        _ => longest.text,
    }
}

/// Whether the longest life of the product has not passed since the version.
pub(crate) fn is_in_life(longest: &Longest, moment: Moment, product: u16, version: Moment) -> bool
    ensures { result ≡ is_in_life longest.now moment product version }
{
    let life = longest_of(longest, product);
    moment < version || moment.seconds() - version.seconds() < life
}

/// A second before which a file of this version is not stale; it is from then on, but where the
/// second is the last of all.
fn end_of(longest: &Longest, product: u16, version: Moment) -> u64
    ensures before { result ≤ version + longest_of longest.now product }
    ensures later { (moment : ℕ) → moment < version + longest_of longest.now product
        → moment < 2 ^ 64 - 1 → moment < result }
{
    version
        .seconds()
        .saturating_add(longest_of(longest, product))
}

/// Drops the pieces of files whose product's longest life has passed, and looks at no others.
pub(crate) fn drop_stale(
    pieces: &mut UndoMap<PieceName, Option<Bytes>>,
    ends: &mut EndQueue<PieceName>,
    longest: &Longest,
    moment: Moment,
)
    requires unmarked { pieces.old.mark ≡ None }
    requires placed { PiecesHavePlaces longest.now ends.old.places pieces.old.entries }
    requires few { length ends.old.places ≤ length pieces.old.entries }
    ensures pieces { pieces.new.entries ≡ live_pieces longest.now moment pieces.old.entries }
    ensures once { AreNamedOnce pieces.new.entries }
    ensures mark { pieces.new.mark ≡ None }
    ensures placed { PiecesHavePlaces longest.now ends.new.places pieces.new.entries }
    ensures few { length ends.new.places ≤ length pieces.new.entries }
    ensures added { ends.new.added ≡ ends.old.added }
{
    let now = moment.seconds();
    while let Some((_, name)) = ends.take_ended(now) {
        drop_name(pieces, ends, longest, name, moment);
    }
    none_is_over::<PieceName, Option<Bytes>>();
    names_stand_once(pieces);
}

/// Drops a name where its file is stale, and gives it a place again where it is not.
fn drop_name(
    pieces: &mut UndoMap<PieceName, Option<Bytes>>,
    ends: &mut EndQueue<PieceName>,
    longest: &Longest,
    name: PieceName,
    moment: Moment,
)
    requires unmarked { pieces.old.mark ≡ None }
    requires room { 0 < ends.old.spare }
    requires moment { moment < 2 ^ 64 - 1 }
    ensures pieces { live_pieces longest.now moment pieces.new.entries
        ≡ live_pieces longest.now moment pieces.old.entries }
    ensures mark { pieces.new.mark ≡ None }
    ensures placed { (before : List (ℕ × PieceName)) (end : ℕ)
        → HasLeft (end, name) before ends.old.places
        → PiecesHavePlaces longest.now before pieces.old.entries
        → PiecesHavePlaces longest.now ends.new.places pieces.new.entries }
    ensures few { length ends.old.places + 1 ≤ length pieces.old.entries
        → length ends.new.places ≤ length pieces.new.entries }
    ensures due { due_places moment ends.new.places ≡ due_places moment ends.old.places }
    ensures added { ends.new.added ≡ ends.old.added }
{
    stations_are_told();
    if is_in_life(longest, moment, name.product, name.version) {
        ends.add_again(end_of(longest, name.product, name.version), name);
        return;
    }
    others_have_places::<PieceName, Option<Bytes>>();
    pieces.remove(&name);
}

/// No name stands twice, since the names are in order.
fn names_stand_once(pieces: &UndoMap<PieceName, Option<Bytes>>)
    ensures { AreNamedOnce pieces.now.entries }
{
    let _ = pieces.len();
}
