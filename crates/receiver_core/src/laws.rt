//! Laws of what a receiver keeps: each is the contract of a function that does nothing but call
//! the laws of lower crates.
ghost use Rattle.picture_core.specs.Entry.{Entry};
ghost use Rattle.picture_core.specs.Kept.{IsStore, live_entries};
ghost use Rattle.receiver_core.specs.Bound.{ReceiversAreBounded};
ghost use Rattle.receiver_core.specs.Laws.{FramesAreReception, KeepsReception};
ghost use Rattle.std.specs.Prelude.{◌≡◌, ℕ, List, []};

use apdu_core::laws::apdu_reads_back;
use fisb_time::laws::named_is_greatest;
use life_table::laws::longest_is_greatest;
use picture_core::laws::{life_of_entries, store_is_bounded, store_may_forget, store_of_entries};
use segment_core::laws::{completed_grows, stores_are_bounded};
use uplink_frame::laws::stations_are_told;

/// The law that nothing is kept of no reception.
#[inline]
pub(crate) fn keeps_nothing()
    ensures { IsStore 0 [] [] }
{
    store_of_entries();
}

/// The law of what is kept with one more reception.
#[inline]
pub(crate) fn keeps_reception()
    ensures arrivals { FramesAreReception }
    ensures entries { KeepsReception }
{
    store_of_entries();
    store_may_forget();
    life_of_entries();
    completed_grows();
}

/// The law that nothing more has ended at a moment once it was forgotten.
#[inline]
pub(crate) fn forgets_once()
    ensures { (moment : ℕ) (kept : List Entry)
        → live_entries moment (live_entries moment kept) ≡ live_entries moment kept }
{
    store_may_forget();
}

/// The law that a receiver which was purged holds little for each reception of which something
/// may live.
#[inline]
pub(crate) fn receivers_are_bounded()
    ensures { ReceiversAreBounded }
{
    apdu_reads_back();
    named_is_greatest();
    longest_is_greatest();
    stations_are_told();
    stores_are_bounded();
    store_is_bounded();
}
