use fisb_time::{Moment, TimeFields, TimeForm, fields_of, resolve, shows};
use std::test::Fail;

/// Hours and minutes, and nothing else.
fn hour_and_minute(hours: u8, minutes: u8) -> TimeFields {
    TimeFields {
        month: 0,
        day: 0,
        hours,
        minutes,
        seconds: 0,
    }
}

/// Noon of a day.
fn noon_of(month: u8, day: u8) -> TimeFields {
    TimeFields {
        month,
        day,
        ..hour_and_minute(12, 0)
    }
}

/// The seconds that the fields name in a form where they are received at `received`.
fn named_in(form: TimeForm, fields: &TimeFields, received: u64) -> Option<u64> {
    let received = Moment::new(received)?;
    resolve(form, fields, received).map(|m| m.seconds())
}

/// The same for hours and minutes.
fn named_at(fields: &TimeFields, received: u64) -> Option<u64> {
    named_in(TimeForm::Minute, fields, received)
}

#[test]
fn moments_are_those_of_the_century(rt: HostRuntime) {
    for (seconds, inside) in [
        (946_684_799, false),
        (946_684_800, true),
        (4_102_444_799, true),
        (4_102_444_800, false),
        (0, false),
        (u64::MAX, false),
    ] {
        let expected = if inside { Some(seconds) } else { None };
        assert_eq!(rt;
            Moment::new(seconds).map(|m| m.seconds()),
            expected,
            "at {seconds}"
        );
    }
}

#[test]
fn forms_without_seconds_show_whole_minutes(rt: HostRuntime) -> Result<(), Fail> {
    let whole = Moment::new(1_699_999_980).ok_or("in range")?;
    let second_later = Moment::new(1_699_999_981).ok_or("in range")?;
    for (form, shows_second) in [
        (TimeForm::Minute, false),
        (TimeForm::Second, true),
        (TimeForm::DayMinute, false),
        (TimeForm::DaySecond, true),
    ] {
        assert!(rt; shows(form, whole));
        assert_eq!(rt; shows(form, second_later), shows_second);
    }
    assert!(rt; whole < second_later);
    Ok(())
}

#[test]
fn each_form_shows_its_own_fields(rt: HostRuntime) -> Result<(), Fail> {
    // 2023-11-14 22:13:00 and a second later
    let whole = Moment::new(1_699_999_980).ok_or("in range")?;
    let second_later = Moment::new(1_699_999_981).ok_or("in range")?;
    let minute = hour_and_minute(22, 13);
    let second = TimeFields {
        seconds: 1,
        ..minute
    };
    assert_eq!(rt; fields_of(TimeForm::Minute, whole), minute);
    assert_eq!(rt; fields_of(TimeForm::Second, second_later), second);
    assert_eq!(rt;
        fields_of(TimeForm::DayMinute, whole),
        TimeFields {
            month: 11,
            day: 14,
            ..minute
        }
    );
    assert_eq!(rt;
        fields_of(TimeForm::DaySecond, second_later),
        TimeFields {
            month: 11,
            day: 14,
            ..second
        }
    );
    let leap_day = Moment::new(1_709_208_000).ok_or("in range")?;
    assert_eq!(rt; fields_of(TimeForm::DayMinute, leap_day), noon_of(2, 29));
    Ok(())
}

#[test]
fn a_time_names_the_latest_moment_up_to_a_minute_ahead(rt: HostRuntime) {
    // received on 2023-11-15 at 00:01:00
    let received = 1_700_006_460;
    assert_eq!(rt;
        named_at(&hour_and_minute(23, 59), received),
        Some(1_700_006_340)
    );
    assert_eq!(rt;
        named_at(&hour_and_minute(0, 2), received),
        Some(1_700_006_520)
    );
    assert_eq!(rt;
        named_at(&hour_and_minute(0, 3), received),
        Some(1_699_920_180)
    );
}

#[test]
fn seconds_are_named_where_the_form_has_them(rt: HostRuntime) {
    // received a minute before 2023-11-14 22:12:01, and a second earlier
    let second = TimeFields {
        seconds: 1,
        ..hour_and_minute(22, 12)
    };
    assert_eq!(rt;
        named_in(TimeForm::Second, &second, 1_699_999_861),
        Some(1_699_999_921)
    );
    assert_eq!(rt;
        named_in(TimeForm::Second, &second, 1_699_999_860),
        Some(1_699_913_521)
    );
    let dated = TimeFields {
        month: 11,
        day: 14,
        ..second
    };
    assert_eq!(rt;
        named_in(TimeForm::DaySecond, &dated, 1_699_999_861),
        Some(1_699_999_921)
    );
    assert_eq!(rt;
        named_in(TimeForm::DaySecond, &dated, 1_699_999_860),
        Some(1_668_463_921)
    );
    let no_second = TimeFields {
        seconds: 60,
        ..dated
    };
    assert_eq!(rt;
        named_in(TimeForm::DaySecond, &no_second, 1_699_999_860),
        None
    );
}

#[test]
fn the_29th_of_february_is_that_of_the_last_leap_year(rt: HostRuntime) {
    // 2024-02-29 12:00, received 100 seconds later and in January 2027
    for received in [1_709_208_100, 1_800_000_000] {
        assert_eq!(rt;
            named_in(TimeForm::DayMinute, &noon_of(2, 29), received),
            Some(1_709_208_000)
        );
    }
    // received a second too early it is that of 2020
    assert_eq!(rt;
        named_in(TimeForm::DayMinute, &noon_of(2, 29), 1_709_207_939),
        Some(1_582_977_600)
    );
}

#[test]
fn dates_that_the_calendar_lacks_name_nothing(rt: HostRuntime) {
    for (month, day) in [(2, 30), (4, 31), (0, 1), (13, 1), (1, 0), (1, 32), (0, 0)] {
        for form in [TimeForm::DayMinute, TimeForm::DaySecond] {
            assert_eq!(rt;
                named_in(form, &noon_of(month, day), 1_800_000_000),
                None,
                "month {month}, day {day}"
            );
        }
    }
    let hour_24 = TimeFields {
        hours: 24,
        ..noon_of(2, 28)
    };
    assert_eq!(rt;
        named_in(TimeForm::DayMinute, &hour_24, 1_800_000_000),
        None
    );
}

#[test]
fn fields_that_no_moment_shows_name_nothing(rt: HostRuntime) {
    let received = 1_700_006_460;
    assert_eq!(rt; named_at(&hour_and_minute(24, 0), received), None);
    assert_eq!(rt; named_at(&hour_and_minute(0, 60), received), None);
    let midnight = hour_and_minute(0, 0);
    assert_eq!(rt;
        named_at(
            &TimeFields {
                seconds: 1,
                ..midnight
            },
            received
        ),
        None
    );
    assert_eq!(rt;
        named_at(
            &TimeFields {
                month: 1,
                ..midnight
            },
            received
        ),
        None
    );
    assert_eq!(rt;
        named_at(&TimeFields { day: 1, ..midnight }, received),
        None
    );
}

#[test]
fn no_time_names_a_moment_outside_the_century(rt: HostRuntime) {
    // 23:59 received in the first second would be a minute before it
    assert_eq!(rt; named_at(&hour_and_minute(23, 59), 946_684_800), None);
    // 00:00 received in the last second would be one second after it, so it is the day before
    assert_eq!(rt;
        named_at(&hour_and_minute(0, 0), 4_102_444_799),
        Some(4_102_358_400)
    );
}

#[test]
fn no_date_names_a_moment_outside_the_century(rt: HostRuntime) {
    let new_year = TimeFields {
        hours: 0,
        ..noon_of(1, 1)
    };
    let year_end = TimeFields {
        minutes: 59,
        hours: 23,
        ..noon_of(12, 31)
    };
    for (fields, received, expected) in [
        (new_year, 946_684_800, Some(946_684_800)),
        (year_end, 946_684_800, None),
        (noon_of(2, 29), 946_684_800, None),
        (year_end, 4_102_444_799, Some(4_102_444_740)),
        (new_year, 4_102_444_799, Some(4_070_908_800)),
        (noon_of(2, 29), 4_102_444_799, Some(3_981_355_200)),
    ] {
        assert_eq!(rt;
            named_in(TimeForm::DayMinute, &fields, received),
            expected,
            "received at {received}"
        );
    }
}
