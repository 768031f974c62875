//! How many bytes of a payload fit a frame in each form.
ghost use Rattle.std.specs.Prelude.{◌≡◌};
ghost use Rattle.segment_core.specs.File.{segment_limit, whole_limit};

use fisb_time::TimeForm;

/// The most bytes of the body of an information frame that fills a frame alone.
pub const BODY_LIMIT: usize = 422;

/// The most bytes of a payload that is sent whole.
pub(crate) fn whole_limit(form: TimeForm) -> usize
    ensures { result ≡ whole_limit form }
{
    match form {
        TimeForm::Minute => 418,
        TimeForm::Second | TimeForm::DayMinute => 417,
        TimeForm::DaySecond => 416,
    }
}

/// The most bytes of a segment of a longer payload.
pub(crate) fn segment_limit(form: TimeForm) -> usize
    ensures { result ≡ segment_limit form }
{
    match form {
        TimeForm::Minute => 415,
        TimeForm::Second => 414,
        TimeForm::DayMinute | TimeForm::DaySecond => 413,
    }
}
