//! The text of a picture.
ghost use Rattle.std.specs.Prelude.{◌≡◌, ◌++◌, IfOk, OnOk, flat_map, length, map, string_bytes};
ghost use Rattle.picture_core.specs.Entry.{cells as cells_value, report as report_value};
ghost use Rattle.picture_core.specs.Key.{radar_block, text_report};
ghost use Rattle.picture_core.specs.Views.{entry_view};
ghost use Rattle.radar_core.specs.Cells.{IsCells};
ghost use Rattle.text_reports.specs.Views.{key_view};
ghost use Rattle.script_core.specs.Printed.{cell_digits, entry_text, hemisphere_word, picture_text};
ghost use Rattle.script_core.specs.Printed.{shown_entry};

use dlac_text::{Report, plain};
use fisb_time::Moment;
use fisb_wire::Bytes;
use picture_core::{Entries, Entry, Key, Shown};
use radar_core::{BlockKey, Cells};
use std::alloc::{AllocError, Global};
use text_reports::TextKey;

/// Room for what stands beside the report in an entry's line: a key of three words of some letters, and a version.
const ENTRY_ROOM: usize = 64;

/// How many cells a block has.
const CELLS: usize = 128;

/// The picture of a moment: how many entries there are, and then each.
pub fn print_picture(alloc: Global, moment: Moment, entries: &Entries) -> Result<Bytes, AllocError>
    ensures { IfOk result (λ text. text ≡ picture_text moment (map entry_view entries.now)) }
{
    let count = entries.len();
    let seconds = moment.seconds();
    let mut text = format!(in alloc; "picture {seconds} {count}\n")?;
    push_entries(alloc, &mut text, entries.all())?;
    Ok(Bytes::of(text.into_bytes()))
}

/// Writes the entries at the end of a text.
fn push_entries(alloc: Global, text: &mut String, entries: &[Entry]) -> Result<(), AllocError>
    ensures { OnOk result (string_bytes text.new
        ≡ string_bytes text.old ++ flat_map shown_entry (map entry_view entries.now)) }
{
    for entry in entries {
        push_entry(alloc, text, entry)?;
    }
    Ok(())
}

/// Writes the line of an entry at the end of a text.
fn push_entry(alloc: Global, text: &mut String, entry: &Entry) -> Result<(), AllocError>
    ensures { OnOk result (string_bytes text.new
        ≡ string_bytes text.old ++ shown_entry (entry_view entry.now)) }
{
    match &entry.key {
        Key::Radar(key) => match &entry.value {
            Shown::Cells(cells) => push_radar(text, key, entry.version, cells),
            Shown::Text(_) => Ok(()),
        },
        Key::Text(key) => match &entry.value {
            Shown::Cells(_) => Ok(()),
            Shown::Text(report) => {
                text.push_str(text_line(alloc, key, entry.version, report)?.as_str())
            }
        },
    }
}

/// Writes the line of a block at the end of a text.
fn push_radar(
    text: &mut String,
    key: &BlockKey,
    version: Moment,
    cells: &Cells,
) -> Result<(), AllocError>
    ensures { OnOk result (string_bytes text.new ≡ string_bytes text.old
        ++ entry_text (radar_block key.now) version (cells_value cells.now)) }
{
    let product = key.product;
    let scale = key.scale;
    let hemisphere = hemisphere_word(key.south);
    let number = key.number;
    let version = version.seconds();
    let mut digits = [0; CELLS];
    put_digits(cells, &mut digits);
    let digits = str::from_utf8(&digits).unwrap();
    write!(
        text,
        "radar {product} {scale} {hemisphere} {number} {version} {digits}\n"
    )
}

fn hemisphere_word(south: bool) -> &'static str
    ensures { result.now ≡ hemisphere_word south }
{
    if south { "s" } else { "n" }
}

/// Writes the intensities of the cells, a digit each.
fn put_digits(cells: &Cells, digits: &mut [u8])
    requires { length digits.old ≡ 128 }
    ensures digits { digits.new ≡ cell_digits cells.now }
    ensures cells { IsCells cells.now }
{
    for place in 0..CELLS {
        digits[place] = b'0' + cells.at(place);
    }
}

fn text_line(
    alloc: Global,
    key: &TextKey,
    version: Moment,
    report: &Report,
) -> Result<String, AllocError>
    ensures { IfOk result (λ s. string_bytes s
        ≡ entry_text (text_report (key_view key.now)) version (report_value report.now)) }
{
    let kind = key.kind.all();
    let place = key.place.all();
    let version = version.seconds();
    let report = plain(alloc, report)?;
    let mut text = String::with_capacity(alloc, report.len().saturating_add(ENTRY_ROOM))?;
    match &key.third {
        Some(third) => {
            let third = third.all();
            write!(text, "text {kind} {place} {third} {version} {report}\n")?;
        }
        None => write!(text, "text {kind} {place} {version} {report}\n")?,
    }
    Ok(text)
}
