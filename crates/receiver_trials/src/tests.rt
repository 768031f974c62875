//! What a receiver makes of payloads. They show the time 22:13, which names 1699999980 then.
use dlac_text::plain;
use fisb_time::Moment;
use life_table::LifeTable;
use picture_core::{Entry, Shown};
use receiver_core::{HearFault, Heard, Receiver, ShowFault, UnreadReason};
use std::alloc::Global;
use std::test::Fail;
use uplink_frame::read_header;

/// The moment of most receptions.
pub(crate) const NOW: u64 = 1_700_000_002;

/// The header with valid application data, of no position, and the same of another site.
const NO_POSITION: &str = "000000000000a000";

const SITE_3: &str = "000000000000a030";

/// The header with application data that are not valid.
const NOT_VALID: &str = "0000000000008000";

/// A frame with the report `METAR KSEA` of 22:13.
pub(crate) const METAR_KSEA: &str = "0680067458d03455014a02d3141000";

/// The same report in two segments of file 1, the first of 3 bytes.
const FIRST_SEGMENT: &str = "0500067658d0040401345501";

const SECOND_SEGMENT: &str = "0680067658d00404024a02d3141000";

/// Frames with the reports `METAR KSEA 0` of 22:12, `METAR KSEA 1`, `METAR KPDX` and `TAF KSEA` of
/// 22:13, and `SPECI KSEA` of 22:14.
const OLDER: &str = "0700067458c03455014a02d314183000";

const EQUAL: &str = "0700067458d03455014a02d314183100";

const METAR_KPDX: &str = "0680067458d03455014a02d0118000";

const TAF_KSEA: &str = "0580067458d05011a02d314100";

const SPECI_KSEA: &str = "0680067458e04d01432602d3141000";

/// A frame of product 63 with one blank block.
const RADAR: &str = "040000fc58d00186a000";

/// A frame of product 64 with one blank block.
const CONUS_BLOCK: &str = "0400010058d00186a000";

/// What is asked of a receiver, and what it has to answer.
#[derive(Clone, Copy)]
pub(crate) enum Step {
    /// To hear these application data at a moment, of which all is read.
    Hear(u64, &'static str),
    /// The same, of the other site.
    HearSite(u64, &'static str),
    /// The same, of which one part is passed on unread: for this reason, of this product and length.
    Pass(u64, &'static str, UnreadReason, u16, u16),
    /// To hear at a moment that is below this last one.
    HearEarly(u64, u64),
    /// To show a picture, which has so many entries.
    Show(u64, usize),
    /// To show one at a moment that is below this last one.
    ShowEarly(u64, u64),
}

pub(crate) fn moment_of(seconds: u64) -> Result<Moment, Fail> {
    let moment = Moment::new(seconds).ok_or("a moment")?;
    Ok(moment)
}

/// A receiver by the default table.
pub(crate) fn new_receiver(alloc: Global) -> Result<Receiver, Fail> {
    Ok(Receiver::new(alloc, LifeTable::default_table(alloc)?))
}

fn bytes_of(alloc: Global, digits: &str) -> Result<Vec<u8>, Fail> {
    let bytes = hex::decode(alloc, digits).ok().ok_or("digits")?;
    Ok(bytes)
}

/// A payload with these application data at their front, after a header of 8 bytes.
fn payload_of(header: &str, data: &[u8]) -> Result<[u8; 432], Fail> {
    let mut payload = [0; 432];
    hex::decode_to_slice(header, &mut payload[..8])
        .ok()
        .ok_or("a header")?;
    for i in 0..data.len() {
        if i < 424 {
            payload[8 + i] = data[i];
        }
    }
    Ok(payload)
}

pub(crate) fn hear_bytes(
    receiver: &mut Receiver,
    seconds: u64,
    data: &[u8],
) -> Result<Heard, Fail> {
    let moment = moment_of(seconds)?;
    let payload = payload_of(NO_POSITION, data)?;
    Ok(receiver.hear_payload(moment, &payload)?)
}

pub(crate) fn hear_digits(
    alloc: Global,
    receiver: &mut Receiver,
    seconds: u64,
    header: &str,
    digits: &str,
) -> Result<Heard, Fail> {
    let moment = moment_of(seconds)?;
    let data = bytes_of(alloc, digits)?;
    let payload = payload_of(header, data.as_slice())?;
    Ok(receiver.hear_payload(moment, &payload)?)
}

/// How many entries the picture at a moment has.
pub(crate) fn entries_at(receiver: &Receiver, alloc: Global, seconds: u64) -> Result<usize, Fail> {
    Ok(receiver.picture(alloc, moment_of(seconds)?)?.len())
}

fn is_hearing_refused(receiver: &mut Receiver, seconds: u64, last: u64) -> Result<bool, Fail> {
    let moment = moment_of(seconds)?;
    let kept = moment_of(last)?;
    let payload = payload_of(NO_POSITION, &[])?;
    Ok(receiver.hear_payload(moment, &payload).err() == Some(HearFault::Clock { kept }))
}

fn is_showing_refused(
    receiver: &Receiver,
    alloc: Global,
    seconds: u64,
    last: u64,
) -> Result<bool, Fail> {
    let moment = moment_of(seconds)?;
    let kept = moment_of(last)?;
    Ok(receiver.picture(alloc, moment).err() == Some(ShowFault::Clock { kept }))
}

/// Whether only one part is passed on unread: for this reason, of this product and length.
fn is_only_unread(answer: &Heard, reason: UnreadReason, product: u16, length: u16) -> bool {
    match answer.unread.all() {
        [part] => part.reason == reason && part.product == product && part.length == length,
        _ => false,
    }
}

fn is_answered(alloc: Global, receiver: &mut Receiver, step: Step) -> Result<bool, Fail> {
    match step {
        Step::Hear(seconds, digits) => {
            let answer = hear_digits(alloc, receiver, seconds, NO_POSITION, digits)?;
            Ok(answer.unread.is_empty())
        }
        Step::HearSite(seconds, digits) => {
            let answer = hear_digits(alloc, receiver, seconds, SITE_3, digits)?;
            Ok(answer.unread.is_empty())
        }
        Step::Pass(seconds, digits, reason, product, length) => {
            let answer = hear_digits(alloc, receiver, seconds, NO_POSITION, digits)?;
            Ok(is_only_unread(&answer, reason, product, length))
        }
        Step::HearEarly(seconds, last) => is_hearing_refused(receiver, seconds, last),
        Step::Show(seconds, count) => Ok(entries_at(receiver, alloc, seconds)? == count),
        Step::ShowEarly(seconds, last) => is_showing_refused(receiver, alloc, seconds, last),
    }
}

/// The place of the first step that is answered otherwise.
pub(crate) fn first_wrong(
    alloc: Global,
    receiver: &mut Receiver,
    steps: &[Step],
) -> Result<Option<usize>, Fail> {
    for (place, step) in steps.iter().enumerate() {
        if !is_answered(alloc, receiver, *step)? {
            return Ok(Some(place));
        }
    }
    Ok(None)
}

/// The same for a receiver by the default table that heard nothing.
pub(crate) fn first_wrong_of_new(alloc: Global, steps: &[Step]) -> Result<Option<usize>, Fail> {
    let mut receiver = new_receiver(alloc)?;
    first_wrong(alloc, &mut receiver, steps)
}

/// Whether a payload with a report is heard with its own header, in slot 0, and with nothing corrected.
fn has_its_header(alloc: Global, receiver: &mut Receiver) -> Result<bool, Fail> {
    let moment = moment_of(NOW)?;
    let data = bytes_of(alloc, METAR_KSEA)?;
    let payload = payload_of(NO_POSITION, data.as_slice())?;
    let answer = receiver.hear_payload(moment, &payload)?;
    let header = answer.header;
    let is_valid = header.app_valid && !header.position_valid && header.slot == 0;
    Ok(is_valid && header == read_header(&payload) && answer.corrected == [0; 6])
}

#[test]
fn the_header_of_a_payload_is_answered(rt: HostRuntime) -> Result<(), Fail> {
    let mut receiver = new_receiver(rt.alloc())?;
    assert!(rt; has_its_header(rt.alloc(), &mut receiver)?);
    Ok(())
}

#[test]
fn a_report_is_heard_and_shown(rt: HostRuntime) -> Result<(), Fail> {
    let steps = [
        Step::Hear(NOW, METAR_KSEA),
        Step::Show(NOW + 1, 1),
        Step::Show(1_700_007_179, 1),
        Step::Show(1_700_007_180, 0),
    ];
    assert_eq!(rt; first_wrong_of_new(rt.alloc(), &steps)?, None);
    Ok(())
}

#[test]
fn a_moment_before_the_last_is_refused(rt: HostRuntime) -> Result<(), Fail> {
    let steps = [
        Step::Hear(NOW, METAR_KSEA),
        Step::HearEarly(NOW - 1, NOW),
        Step::ShowEarly(NOW - 1, NOW),
        Step::Show(NOW, 1),
    ];
    assert_eq!(rt; first_wrong_of_new(rt.alloc(), &steps)?, None);
    Ok(())
}

#[test]
fn segments_are_joined_in_any_order(rt: HostRuntime) -> Result<(), Fail> {
    let steps = [
        Step::Hear(NOW, SECOND_SEGMENT),
        Step::Show(NOW, 0),
        Step::Hear(NOW + 1, FIRST_SEGMENT),
        Step::Show(NOW + 1, 1),
    ];
    assert_eq!(rt; first_wrong_of_new(rt.alloc(), &steps)?, None);
    Ok(())
}

#[test]
fn segments_of_two_stations_are_never_joined(rt: HostRuntime) -> Result<(), Fail> {
    let steps = [
        Step::Hear(NOW, FIRST_SEGMENT),
        Step::HearSite(NOW + 1, SECOND_SEGMENT),
        Step::Show(NOW + 1, 0),
        Step::Hear(NOW + 2, SECOND_SEGMENT),
        Step::Show(NOW + 2, 1),
    ];
    assert_eq!(rt; first_wrong_of_new(rt.alloc(), &steps)?, None);
    Ok(())
}

#[test]
fn headers_are_refused(rt: HostRuntime) -> Result<(), Fail> {
    let steps = [
        Step::Pass(NOW, "0180067458", UnreadReason::Short, 0, 3),
        Step::Pass(NOW, "0200867458d0", UnreadReason::Flagged, 413, 4),
        Step::Pass(NOW, "0380067658d0000403", UnreadReason::Segment, 413, 7),
        Step::Pass(NOW, "0200067058d0", UnreadReason::Product, 412, 4),
        Step::Pass(NOW, "0380067658d0008201", UnreadReason::Files, 413, 7),
        Step::Pass(NOW, "0200067460d0", UnreadReason::Time, 413, 4),
    ];
    assert_eq!(rt; first_wrong_of_new(rt.alloc(), &steps)?, None);
    Ok(())
}

#[test]
fn headers_that_are_just_in_order_are_read(rt: HostRuntime) -> Result<(), Fail> {
    let steps = [
        Step::Hear(NOW, "0200067458d0"),
        Step::Hear(NOW, "0380067658d0000402"),
        Step::Hear(NOW, RADAR),
        Step::Hear(NOW, CONUS_BLOCK),
        Step::Hear(NOW, "0380067658d0008001"),
        Step::Hear(NOW, "020006745cd0"),
    ];
    assert_eq!(rt; first_wrong_of_new(rt.alloc(), &steps)?, None);
    Ok(())
}

/// Whether a payload with a report is refused for want of application data.
fn has_no_application(alloc: Global, receiver: &mut Receiver) -> Result<bool, Fail> {
    let moment = moment_of(NOW)?;
    let data = bytes_of(alloc, METAR_KSEA)?;
    let payload = payload_of(NOT_VALID, data.as_slice())?;
    Ok(receiver.hear_payload(moment, &payload).err() == Some(HearFault::NoApplication))
}

#[test]
fn nothing_is_heard_without_valid_application_data(rt: HostRuntime) -> Result<(), Fail> {
    let mut receiver = new_receiver(rt.alloc())?;
    assert!(rt; has_no_application(rt.alloc(), &mut receiver)?);
    assert_eq!(rt; entries_at(&receiver, rt.alloc(), NOW)?, 0);
    Ok(())
}

/// Whether an entry is this report of this version.
pub(crate) fn is_report(
    alloc: Global,
    entry: &Entry,
    text: &str,
    version: u64,
) -> Result<bool, Fail> {
    match &entry.value {
        Shown::Cells(_) => Ok(false),
        Shown::Text(report) => {
            let plain = plain(alloc, report)?;
            Ok(entry.version.seconds() == version && plain.as_str() == text)
        }
    }
}

/// Whether the picture has these reports of these versions, in this order.
pub(crate) fn has_reports(
    receiver: &Receiver,
    alloc: Global,
    seconds: u64,
    wanted: &[(&str, u64)],
) -> Result<bool, Fail> {
    let entries = receiver.picture(alloc, moment_of(seconds)?)?;
    let entries = entries.all();
    if entries.len() != wanted.len() {
        return Ok(false);
    }
    for (place, (text, version)) in wanted.iter().enumerate() {
        let Some(entry) = entries.get(place) else {
            return Ok(false);
        };
        if !is_report(alloc, entry, text, *version)? {
            return Ok(false);
        }
    }
    Ok(true)
}

/// The version of most reports.
pub(crate) const SHOWN: u64 = 1_699_999_980;

/// Whether these steps are answered, and the picture then has these reports.
fn has_reports_after(
    alloc: Global,
    receiver: &mut Receiver,
    steps: &[Step],
    seconds: u64,
    wanted: &[(&str, u64)],
) -> Result<bool, Fail> {
    if first_wrong(alloc, receiver, steps)?.is_some() {
        return Ok(false);
    }
    has_reports(receiver, alloc, seconds, wanted)
}

/// A report, an older one, and one of the same version.
const OF_ONE_KEY: [Step; 3] = [
    Step::Hear(NOW, METAR_KSEA),
    Step::Hear(NOW, OLDER),
    Step::Hear(NOW, EQUAL),
];

/// Two of other keys.
const OF_OTHER_KEYS: [Step; 2] = [Step::Hear(NOW, TAF_KSEA), Step::Hear(NOW, METAR_KPDX)];

/// A newer one of the first key.
const NEWER: [Step; 1] = [Step::Hear(NOW + 60, SPECI_KSEA)];

const ONE_REPORT: [(&str, u64); 1] = [("METAR KSEA", SHOWN)];

const THREE_REPORTS: [(&str, u64); 3] = [
    ("METAR KPDX", SHOWN),
    ("METAR KSEA", SHOWN),
    ("TAF KSEA", SHOWN),
];

const WITH_NEWER: [(&str, u64); 3] = [
    ("METAR KPDX", SHOWN),
    ("SPECI KSEA", SHOWN + 60),
    ("TAF KSEA", SHOWN),
];

#[test]
fn the_newest_version_of_a_key_is_kept(rt: HostRuntime) -> Result<(), Fail> {
    let alloc = rt.alloc();
    let mut receiver = new_receiver(alloc)?;
    let kept = has_reports_after(alloc, &mut receiver, &OF_ONE_KEY, NOW, &ONE_REPORT)?;
    assert!(rt; kept, "one key");
    let joined = has_reports_after(alloc, &mut receiver, &OF_OTHER_KEYS, NOW, &THREE_REPORTS)?;
    assert!(rt; joined, "other keys");
    let newer = has_reports_after(alloc, &mut receiver, &NEWER, NOW + 60, &WITH_NEWER)?;
    assert!(rt; newer, "newer");
    Ok(())
}

/// A table without a row of radar.
const NO_RADAR: &str =
    "version = 1\nlate = 600\n[[text]]\ntype = \"TAF\"\nwords = 2\nlife = 60\nform = 0\n";

#[test]
fn a_product_without_a_row_is_passed_on(rt: HostRuntime) -> Result<(), Fail> {
    let table = LifeTable::read(rt.alloc(), NO_RADAR.as_bytes())?;
    let mut receiver = Receiver::new(rt.alloc(), table);
    let steps = [
        Step::Pass(NOW, RADAR, UnreadReason::NoRow, 63, 8),
        Step::Pass(NOW, CONUS_BLOCK, UnreadReason::NoRow, 64, 8),
        Step::Show(NOW, 0),
    ];
    assert_eq!(rt; first_wrong(rt.alloc(), &mut receiver, &steps)?, None);
    Ok(())
}

#[test]
fn a_frame_is_stale_once_the_longest_life_of_its_product_has_passed(
    rt: HostRuntime,
) -> Result<(), Fail> {
    let steps = [
        Step::Hear(1_700_001_179, RADAR),
        Step::Pass(1_700_001_180, RADAR, UnreadReason::Stale, 63, 8),
    ];
    assert_eq!(rt; first_wrong_of_new(rt.alloc(), &steps)?, None);
    Ok(())
}

/// The reports `METAR` and `METAR KPDX` in one payload, and `XYZ KSEA` in another.
const FEW_WORDS: &str = "0880067458d03455014803455014a02d011800";

const UNLISTED: &str = "0580067458d06196a02d314100";

#[test]
fn a_report_without_a_key_does_not_end_the_payload(rt: HostRuntime) -> Result<(), Fail> {
    let steps = [
        Step::Pass(NOW, FEW_WORDS, UnreadReason::Words, 413, 17),
        Step::Show(NOW, 1),
        Step::Pass(NOW + 1, UNLISTED, UnreadReason::Unlisted, 413, 11),
    ];
    assert_eq!(rt; first_wrong_of_new(rt.alloc(), &steps)?, None);
    Ok(())
}

#[test]
fn a_frame_of_zeros_has_no_application_data(rt: HostRuntime) -> Result<(), Fail> {
    let mut receiver = new_receiver(rt.alloc())?;
    let answer = receiver.hear(moment_of(NOW)?, &[0; 552]);
    assert!(rt; answer.err() == Some(HearFault::NoApplication));
    Ok(())
}
