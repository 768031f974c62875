//! Moments of the century from 2000 to 2099.
ghost use Rattle.std.specs.Prelude.{◌≡◌, ◌↔◌, IsSome, IfSome};
ghost use Rattle.fisb_time.specs.Moment.{IsMoment};

use std::marker::Model;

/// The first moment, 2000-01-01 00:00:00 UTC.
const FIRST: u64 = 946_684_800;

/// The last moment, 2099-12-31 23:59:59 UTC.
pub(crate) const LAST: u64 = 4_102_444_799;

/// The seconds of a day.
pub(crate) const DAY: u64 = 86_400;

/// A moment: whole seconds since 1970-01-01 00:00:00 UTC, from 2000-01-01 00:00:00
/// (946,684,800) to 2099-12-31 23:59:59 (4,102,444,799). A contract sees it as the number.
#[derive(Clone, Copy, Debug, PartialEq, Eq, PartialOrd, Ord)]
pub struct Moment(u64);

impl Model for Moment {
    ghost use Rattle.std.specs.Prelude.{ℕ};
    ghost use Rattle.fisb_time.specs.Moment.{IsMoment};

    ghost Value = { ℕ };

    ghost view = { λ m. m.0 };

    ghost invariant = { λ m. IsMoment m.0 };

    ghost inverse = { λ n. record { 0 = n } };
}

impl Moment {
    /// The moment at this many seconds, or `None` where that is out of the range.
    pub fn new(seconds: u64) -> Option<Moment>
        ensures in_range { IsSome result ↔ IsMoment seconds }
        ensures value { IfSome result (λ m. m ≡ seconds) }
    {
        if FIRST <= seconds && seconds <= LAST {
            Some(Moment(seconds))
        } else {
            None
        }
    }

    /// The seconds since 1970-01-01 00:00:00 UTC.
    pub fn seconds(self) -> u64
        ensures value { result ≡ self }
        ensures in_range { IsMoment result }
    {
        self.0
    }
}
