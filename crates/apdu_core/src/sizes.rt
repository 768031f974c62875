//! The sizes of a header in each form.
ghost use Rattle.std.specs.Prelude.{◌≡◌};
ghost use Rattle.apdu_core.specs.Apdu.{header_length, header_width, time_width};

use fisb_time::TimeForm;

/// The bits of the time in a form.
pub(crate) fn time_width(form: TimeForm) -> usize
    ensures { result ≡ time_width form }
{
    match form {
        TimeForm::Minute => 11,
        TimeForm::Second => 17,
        TimeForm::DayMinute => 20,
        TimeForm::DaySecond => 26,
    }
}

/// The bits of a header before its fill.
pub(crate) fn header_width(form: TimeForm, is_segmented: bool) -> usize
    ensures { result ≡ header_width form is_segmented }
{
    let segment_width = if is_segmented { 28 } else { 0 };
    17 + time_width(form) + segment_width
}

/// The bytes of a header.
pub(crate) fn header_length(form: TimeForm, is_segmented: bool) -> usize
    ensures { result ≡ header_length form is_segmented }
{
    (header_width(form, is_segmented) + 7) / 8
}
