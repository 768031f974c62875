//! The texts of frames: those that are sent, and what is heard of one.
ghost use Rattle.std.specs.Prelude.{◌≡◌, ◌∷◌, ◌++◌, [], IfOk, OnOk, codes, decimal, flat_map, map};
ghost use Rattle.std.specs.Prelude.{string_bytes};
ghost use Rattle.receiver_core.specs.Hearing.{unread_view};
ghost use Rattle.refusal_core.specs.Refusal.{line_of_words};
ghost use Rattle.script_core.specs.Printed.{heard_lines, lost_line, noapp_line, sent_line};
ghost use Rattle.script_core.specs.Printed.{unread_text, unread_word};

use fisb_time::Moment;
use fisb_wire::Bytes;
use ground_core::AirFrame;
use receiver_core::{Heard, Unread, UnreadReason};
use std::alloc::{AllocError, Global};

/// A frame that was sent: its number, moment and slot, how many bodies it has, and what they take; with its bytes on the
/// air, as hexadecimal digits, where they are asked for.
pub fn print_sent(
    alloc: Global,
    index: u32,
    frame: &AirFrame,
    with_air: bool,
) -> Result<Bytes, AllocError>
    ensures { IfOk result (λ text. text ≡ sent_line index frame.now with_air) }
{
    if with_air {
        let digits = hex::encode(alloc, frame.air.as_slice())?;
        let text = sent_air(alloc, index, frame, digits.as_str())?;
        return Ok(Bytes::of(text.into_bytes()));
    }
    let moment = frame.moment.seconds();
    let slot = frame.slot;
    let bodies = frame.bodies;
    let used = frame.used;
    let text = format!(in alloc; "sent {index} {moment} {slot} {bodies} {used}\n")?;
    Ok(Bytes::of(text.into_bytes()))
}

fn sent_air(alloc: Global, index: u32, frame: &AirFrame, digits: &str) -> Result<String, AllocError>
    ensures { IfOk result (λ s. string_bytes s ≡ line_of_words (codes "sent" ∷ decimal index
        ∷ decimal frame.now.moment ∷ decimal frame.now.slot ∷ decimal frame.now.bodies
        ∷ decimal frame.now.used ∷ digits.now ∷ [])) }
{
    let moment = frame.moment.seconds();
    let slot = frame.slot;
    let bodies = frame.bodies;
    let used = frame.used;
    format!(in alloc; "sent {index} {moment} {slot} {bodies} {used} {digits}\n")
}

/// A reception: the slot and the site of the frame, how many bytes of each block were corrected,
/// and the parts that are passed on unread.
pub fn print_heard(alloc: Global, moment: Moment, heard: &Heard) -> Result<Bytes, AllocError>
    ensures { IfOk result (λ text. text ≡ heard_lines moment heard.now.header heard.now.corrected
        (map unread_view heard.now.unread)) }
{
    let header = heard.header;
    let mut text = heard_line(alloc, moment, header.slot, header.site, heard.corrected)?;
    push_unread(alloc, &mut text, heard.unread.all())?;
    Ok(Bytes::of(text.into_bytes()))
}

fn heard_line(
    alloc: Global,
    moment: Moment,
    slot: u8,
    site: u8,
    counts: [u8; 6],
) -> Result<String, AllocError>
    ensures { IfOk result (λ s. string_bytes s ≡ line_of_words (codes "heard" ∷ decimal moment
        ∷ decimal slot ∷ decimal site ∷ map decimal counts)) }
{
    let moment = moment.seconds();
    let [first, second, third, fourth, fifth, sixth] = counts;
    format!(in alloc;
        "heard {moment} {slot} {site} {first} {second} {third} {fourth} {fifth} {sixth}\n"
    )
}

/// Writes the unread parts at the end of a text.
fn push_unread(alloc: Global, text: &mut String, parts: &[Unread]) -> Result<(), AllocError>
    ensures { OnOk result (string_bytes text.new
        ≡ string_bytes text.old ++ flat_map unread_text (map unread_view parts.now)) }
{
    for part in parts {
        text.push_str(unread_line(alloc, part)?.as_str())?;
    }
    Ok(())
}

fn unread_line(alloc: Global, part: &Unread) -> Result<String, AllocError>
    ensures { IfOk result (λ s. string_bytes s ≡ unread_text (unread_view part.now)) }
{
    let word = unread_word(part.reason);
    let kind = part.kind;
    let product = part.product;
    let length = part.length;
    format!(in alloc; "unread {word} {kind} {product} {length}\n")
}

fn unread_word(reason: UnreadReason) -> &'static str
    ensures { result.now ≡ unread_word reason }
{
    match reason {
        UnreadReason::Kind => "kind",
        UnreadReason::Short => "short",
        UnreadReason::Flagged => "flagged",
        UnreadReason::Segment => "segment",
        UnreadReason::Product => "product",
        UnreadReason::NoRow => "norow",
        UnreadReason::Files => "files",
        UnreadReason::Time => "time",
        UnreadReason::Stale => "stale",
        UnreadReason::RadarShort => "radarshort",
        UnreadReason::Scale => "scale",
        UnreadReason::Runs => "runs",
        UnreadReason::High => "high",
        UnreadReason::Bitmap => "bitmap",
        UnreadReason::Words => "words",
        UnreadReason::Unlisted => "unlisted",
    }
}

/// A frame of which a block is lost.
pub fn print_lost(alloc: Global, moment: Moment, block: u8) -> Result<Bytes, AllocError>
    ensures { IfOk result (λ text. text ≡ lost_line moment block) }
{
    let moment = moment.seconds();
    let text = format!(in alloc; "lost {moment} {block}\n")?;
    Ok(Bytes::of(text.into_bytes()))
}

/// A frame without valid application data.
pub fn print_noapp(alloc: Global, moment: Moment) -> Result<Bytes, AllocError>
    ensures { IfOk result (λ text. text ≡ noapp_line moment) }
{
    let moment = moment.seconds();
    let text = format!(in alloc; "noapp {moment}\n")?;
    Ok(Bytes::of(text.into_bytes()))
}
