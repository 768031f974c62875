//! How long a version is sent, and in which form.
ghost use Rattle.std.specs.Prelude.{◌≤◌, IsTrue};
ghost use Rattle.fisb_time.specs.TimeForm.{shows};
ghost use Rattle.life_table.specs.LifeTable.{thirty_days};

use fisb_time::{Moment, TimeForm};

/// A version, the form in which its time is sent, and its life.
#[derive(Clone, Copy)]
pub(crate) struct Validity {
    pub(crate) version: Moment,
    pub(crate) form: TimeForm,
    pub(crate) life: u64,
    ghost shown: { IsTrue (shows form version) },
    ghost bounded: { life ≤ thirty_days },
}
