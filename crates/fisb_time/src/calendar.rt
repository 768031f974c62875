//! Dates of the Gregorian calendar.
ghost use Rattle.std.specs.Prelude.{◌≡◌, ℕ, ◌+◌, ◌%◌, ◌<◌, ◌≤◌, ◌↔◌, ◌⊎◌, IsTrue, pos};
ghost use Rattle.std.specs.Int.{IsInRange};
ghost use Rattle.jiff_core.specs.Calendar.{IsCivilDate, days_from_civil};
ghost use Rattle.fisb_time.specs.Moment.{IsMoment};
ghost use Rattle.fisb_time.specs.CivilDate.{IsMonthAndDay, date_of};

use crate::moment::DAY;
use jiff::civil::Date;
use jiff_core::civil;

/// The date of a moment, which is given in seconds.
pub(crate) fn date_at(seconds: u64) -> Date
    requires { IsMoment seconds }
    ensures year { result.year ≡ pos (date_of seconds).year }
    ensures month { result.month ≡ (date_of seconds).month }
    ensures day { result.day ≡ (date_of seconds).day }
{
    let day = seconds / DAY;
    Date::from_plain(civil::Date::from_unix_epoch_day(day as i64).unwrap())
}

/// The year of a moment, which is given in seconds.
pub(crate) fn year_at(seconds: u64) -> u16
    requires { IsMoment seconds }
    ensures { result ≡ (date_of seconds).year }
{
    date_at(seconds).year().unsigned_abs()
}

/// The days from 1970-01-01 to a date.
pub(crate) fn day_number(year: u16, month: u8, day: u8) -> u64
    requires years { IsInRange 1971 2099 year }
    requires civil { IsCivilDate (pos year) month day }
    ensures value { days_from_civil (pos year) month day ≡ pos result }
    ensures bound { result ≤ 2932896 }
{
    let date = civil::Date {
        year: year as i16,
        month,
        day,
    };
    u64::from(date.to_unix_epoch_day().unsigned_abs())
}

/// Whether the month has this day, if only in a leap year.
pub(crate) fn is_month_and_day(month: u8, day: u8) -> bool
    ensures { IsTrue result ↔ IsMonthAndDay month day }
{
    1 <= month && month <= 12 && 1 <= day && day <= civil::days_in_month(2000, month)
}

/// How many years lie between two years in which the month has this day. From 1996 to 2099 every
/// fourth year is a leap year.
pub(crate) fn years_between(month: u8, day: u8) -> u16
    requires { IsMonthAndDay month day }
    ensures range { (result ≡ 1) ⊎ (result ≡ 4) }
    ensures every { (year : ℕ) → IsInRange 1996 2099 year →
        IsCivilDate (pos year) month day ↔ (year % result ≡ 0) }
{
    if month == 2 && day == 29 { 4 } else { 1 }
}
