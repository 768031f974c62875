//! Which moment a received time names.
ghost use Rattle.std.specs.Prelude.{◌≡◌, ℕ, ◌+◌, ◌*◌, ◌%◌, ◌<◌, ◌≤◌, ◌↔◌, min, IsTrue, IsSome};
ghost use Rattle.std.specs.Prelude.{IsNone, IfSome};
ghost use Rattle.fisb_time.specs.Moment.{IsMoment, day_seconds, last_moment};
ghost use Rattle.fisb_time.specs.CivilDate.{IsMonthAndDay, date_of};
ghost use Rattle.fisb_time.specs.TimeFields.{IsSecondIn, IsDateIn, IsTimeIn};
ghost use Rattle.fisb_time.specs.Naming.{IsCandidate, Names, named_moment};

use crate::calendar::{day_number, is_month_and_day, year_at, years_between};
use crate::form::{TimeFields, TimeForm};
use crate::moment::{DAY, LAST, Moment};

/// The moment that the fields name where they are received at `received`: the latest one that the
/// form shows, that has these fields and that is not more than 60 seconds after the reception.
/// `None` where there is no such moment.
pub fn resolve(form: TimeForm, fields: &TimeFields, received: Moment) -> Option<Moment>
    ensures names { IfSome result (Names form fields.now received) }
    ensures none { IsNone result ↔ ((m : ℕ) → ¬ IsCandidate form fields.now received m) }
    ensures found { (m : ℕ) → IsCandidate form fields.now received m → IsSome result }
    ensures value { result ≡ named_moment form fields.now received }
{
    if !is_time(form, fields) {
        return None;
    }
    Moment::new(latest_with(form, fields, received))
}

/// Whether each field that the form has is in its range, and the others are 0.
fn is_time(form: TimeForm, fields: &TimeFields) -> bool
    ensures { IsTrue result ↔ IsTimeIn form fields.now }
{
    fields.hours < 24
        && fields.minutes < 60
        && is_second(form, fields.seconds)
        && is_date(form, fields.month, fields.day)
}

/// Whether the form has this second.
fn is_second(form: TimeForm, second: u8) -> bool
    ensures { IsTrue result ↔ IsSecondIn form second }
{
    match form {
        TimeForm::Minute | TimeForm::DayMinute => second == 0,
        TimeForm::Second | TimeForm::DaySecond => second < 60,
    }
}

/// Whether the form has this month and day.
fn is_date(form: TimeForm, month: u8, day: u8) -> bool
    ensures { IsTrue result ↔ IsDateIn form month day }
{
    match form {
        TimeForm::Minute | TimeForm::Second => month == 0 && day == 0,
        TimeForm::DayMinute | TimeForm::DaySecond => is_month_and_day(month, day),
    }
}

/// The latest second with these fields that is not more than a minute after the reception, nor
/// after the last moment. It may lie before the first moment.
fn latest_with(form: TimeForm, fields: &TimeFields, received: Moment) -> u64
    requires { IsTimeIn form fields.now }
    ensures candidate { IsMoment result → IsCandidate form fields.now received result }
    ensures latest { (m : ℕ) → IsCandidate form fields.now received m → m ≤ result }
    ensures not_after { result ≤ last_moment }
{
    let second_of_day = u64::from(fields.hours) * 3_600
        + u64::from(fields.minutes) * 60
        + u64::from(fields.seconds);
    match form {
        TimeForm::Minute | TimeForm::Second => latest_at(second_of_day, received),
        TimeForm::DayMinute | TimeForm::DaySecond => {
            latest_on(fields.month, fields.day, second_of_day, received)
        }
    }
}

/// The latest second at this second of a day that is not more than a minute after the reception,
/// nor after the last moment.
fn latest_at(second_of_day: u64, received: Moment) -> u64
    requires { second_of_day < DAY }
    ensures at { result % day_seconds ≡ second_of_day }
    ensures not_ahead { result ≤ min (received + 60) last_moment }
    ensures latest { min (received + 60) last_moment < result + day_seconds }
{
    let latest = latest_second(received);
    let candidate = latest / DAY * DAY + second_of_day;
    if candidate <= latest {
        candidate
    } else {
        candidate - DAY
    }
}

/// The latest second at this second of a day on this day of this month that is not more than a
/// minute after the reception, nor after the last moment.
fn latest_on(month: u8, day: u8, second_of_day: u64, received: Moment) -> u64
    requires second { second_of_day < DAY }
    requires date { IsMonthAndDay month day }
    ensures at { result % day_seconds ≡ second_of_day }
    ensures on { IsMoment result → ((date_of result).month ≡ month) × ((date_of result).day ≡ day) }
    ensures not_ahead { result ≤ min (received + 60) last_moment }
    ensures latest { (m : ℕ) → IsMoment m → m ≤ min (received + 60) last_moment →
        (date_of m).month ≡ month → (date_of m).day ≡ day → m % day_seconds ≡ second_of_day →
        m ≤ result }
{
    let latest = latest_second(received);
    let step = years_between(month, day);
    let year = year_at(latest) / step * step;
    let last_time = day_number(year, month, day) * DAY + second_of_day;
    if last_time <= latest {
        last_time
    } else {
        day_number(year - step, month, day) * DAY + second_of_day
    }
}

/// The latest second that a time can name: a minute after the reception, or the last moment.
fn latest_second(received: Moment) -> u64
    ensures value { result ≡ min (received + 60) last_moment }
    ensures range { IsMoment result }
{
    (received.seconds() + 60).min(LAST)
}
