//! The forms of the time field, and the fields that each shows of a moment.
ghost use Rattle.std.specs.Prelude.{◌≡◌, IsTrue};
ghost use Rattle.fisb_time.specs.TimeForm.{shows};
ghost use Rattle.fisb_time.specs.TimeFields.{shown_fields};

use crate::calendar::date_at;
use crate::moment::{DAY, Moment};

/// The form of an APDU's time field.
#[derive(Clone, Copy, Debug, PartialEq, Eq)]
pub enum TimeForm {
    /// Hours and minutes.
    Minute,
    /// Hours, minutes and seconds.
    Second,
    /// Month, day, hours and minutes.
    DayMinute,
    /// Month, day, hours, minutes and seconds.
    DaySecond,
}

/// The fields of a time in UTC, as they are received: nothing says that they are those of a moment.
/// A field that the form lacks is 0.
#[derive(Clone, Copy, Debug, PartialEq, Eq)]
pub struct TimeFields {
    /// The month, 1 to 12.
    pub month: u8,
    /// The day of the month, 1 to 31.
    pub day: u8,
    /// The hour of the day, 0 to 23.
    pub hours: u8,
    /// The minute of the hour, 0 to 59.
    pub minutes: u8,
    /// The second of the minute, 0 to 59.
    pub seconds: u8,
}

/// Whether the form shows the moment: a form without seconds shows whole minutes alone.
pub fn shows(form: TimeForm, moment: Moment) -> bool
    ensures { result ≡ shows form moment }
{
    match form {
        TimeForm::Minute | TimeForm::DayMinute => moment.seconds() % 60 == 0,
        TimeForm::Second | TimeForm::DaySecond => true,
    }
}

/// The fields of a moment, in a form that shows it.
pub fn fields_of(form: TimeForm, moment: Moment) -> TimeFields
    requires showable { IsTrue (shows form moment) }
    ensures { result ≡ shown_fields form moment }
{
    let (month, day) = month_and_day(form, moment);
    let second_of_day = moment.seconds() % DAY;
    TimeFields {
        month,
        day,
        hours: (second_of_day / 3_600) as u8,
        minutes: (second_of_day / 60 % 60) as u8,
        seconds: (second_of_day % 60) as u8,
    }
}

/// The month and the day of a moment in the form, 0 where the form has no date.
fn month_and_day(form: TimeForm, moment: Moment) -> (u8, u8)
    ensures month { result.0 ≡ (shown_fields form moment).month }
    ensures day { result.1 ≡ (shown_fields form moment).day }
{
    match form {
        TimeForm::Minute | TimeForm::Second => (0, 0),
        TimeForm::DayMinute | TimeForm::DaySecond => {
            let date = date_at(moment.seconds());
            (date.month().unsigned_abs(), date.day().unsigned_abs())
        }
    }
}
