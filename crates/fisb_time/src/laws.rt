//! Laws of the definitions, for the crates above: each is the contract of a function that does
//! nothing.
ghost use Rattle.std.specs.Prelude.{◌≡◌, ℕ, ◌+◌, ◌*◌, ◌<◌, ◌≤◌, ◌↔◌, IsTrue};
ghost use Rattle.fisb_time.specs.declared.form.TimeForm.{TimeForm};
ghost use Rattle.fisb_time.specs.declared.form.TimeFields.{TimeFields};
ghost use Rattle.fisb_time.specs.Moment.{IsMoment, day_seconds};
ghost use Rattle.fisb_time.specs.TimeForm.{shows};
ghost use Rattle.fisb_time.specs.TimeFields.{shown_fields};
ghost use Rattle.fisb_time.specs.CivilDate.{CivilDate, IsDateOf, date_of};
ghost use Rattle.fisb_time.specs.Naming.{Names, NamesAgain, named_moment, window};

/// The moment that is found by the function is the one that is named by property.
pub fn named_is_greatest()
    ensures { (form : TimeForm) (fields : TimeFields) (received moment : ℕ) →
        (named_moment form fields received ≡ Some moment) ↔ Names form fields received moment }
{}

/// The time round trip for times of day: the fields of a moment name that moment again where they
/// are received from a minute before it on, and earlier than a minute short of a day after it.
pub fn time_round_trip()
    ensures minutes { NamesAgain TimeForm.Minute day_seconds }
    ensures seconds { NamesAgain TimeForm.Second day_seconds }
{
    form_round_trip()
}

/// The time round trip for dates: the fields of a moment name that moment again where they are
/// received from a minute before it on, and earlier than a minute short of 365 days after it.
pub fn date_round_trip()
    ensures minutes { NamesAgain TimeForm.DayMinute (365 * day_seconds) }
    ensures seconds { NamesAgain TimeForm.DaySecond (365 * day_seconds) }
{
    form_round_trip()
}

/// Both round trips as one, for every form: `window` is a day or 365 days.
pub fn form_round_trip()
    ensures named { (form : TimeForm) (moment received : ℕ) →
        IsMoment moment → IsMoment received →
        IsTrue (shows form moment) →
        moment ≤ received + 60 → received + 60 < moment + window form →
        named_moment form (shown_fields form moment) received ≡ Some moment }
    ensures names { (form : TimeForm) → NamesAgain form (window form) }
{}

/// The date that the function computes is the one that the calendar has for the day of the moment.
pub fn date_of_day()
    ensures { (moment : ℕ) (date : CivilDate) → IsMoment moment →
        (date_of moment ≡ date) ↔ IsDateOf moment date }
{}
