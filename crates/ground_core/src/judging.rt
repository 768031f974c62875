//! Whether an update may be given: each reason against it.
ghost use Rattle.std.specs.Prelude.{◌≡◌, ℕ, ◌+◌, ◌≤◌, ◌<◌, ◌^◌, ◌∷◌, Option, None, Some, Ok, true};
ghost use Rattle.std.specs.Prelude.{List, length, IfOk, IfErr, IfSome, IfNone, OnOk, IsTrue};
ghost use Rattle.std.specs.Prelude.{nat_lt};
ghost use Rattle.std.specs.Prelude.{if◌then◌else◌, ◌&&◌};
ghost use Rattle.std.specs.List.{list_all};
ghost use Rattle.std.specs.Str.{chars};
ghost use Rattle.apdu_core.specs.Apdu.{file_numbers};
ghost use Rattle.fisb_time.specs.TimeForm.{shows};
ghost use Rattle.dlac_text.specs.Payload.{text_payload};
ghost use Rattle.life_table.specs.LifeTable.{thirty_days, radar, radar_row};
ghost use Rattle.dlac_text.specs.Refusal.{IsSendable, text_refusal};
ghost use Rattle.radar_core.specs.Keys.{first_high};
ghost use Rattle.text_reports.specs.TextKey.{text_key};
ghost use Rattle.text_reports.specs.Views.{key_view};
ghost use Rattle.picture_core.specs.Key.{Key};
ghost use Rattle.ground_core.specs.Item.{Weather};
ghost use Rattle.ground_core.specs.Item as items;
ghost use Rattle.ground_core.specs.Refusal.{GiveRefusal, text_fault_refusal, version_refusal};
ghost use Rattle.ground_core.specs.Refusal.{age_refusal, radar_refusal, timing, rise};
ghost use Rattle.ground_core.specs.Refusal.{is_block, are_blanks};
ghost use Rattle.ground_core.specs.Piece.{Latest};
ghost use Rattle.ground_core.specs.Views.{count_at};
ghost use Rattle.ground_core.specs.Told.{IsTold, key_refusal_by, count_refusal};

use crate::fault::GiveFault;
use crate::files::Files;
use crate::validity::Validity;
use dlac_text::{TextFault, encode_text};
use fisb_time::{Moment, TimeForm, shows};
use fisb_wire::Bytes;
use life_table::LifeTable;
use radar_core::{BlockKey, FIRST_HIGH};
use std::alloc::Global;
use text_reports::{KeyFault, TextKey, key_of};

/// How many file numbers there are.
const FILE_NUMBERS: u64 = 1024;

/// How many empty blocks one update may have.
const MOST_BLANKS: usize = 1024;

/// The payload of a text, or why it cannot be sent.
pub(crate) fn payload_of_text(alloc: Global, text: &str) -> Result<Bytes, GiveFault>
    requires { length text.now < 2 ^ 32 }
    ensures payload { IfOk result (λ bytes. bytes ≡ text_payload text.now) }
    ensures sendable { IfOk result (λ _. IsSendable text.now) }
    ensures none { IfOk result (λ _. text_refusal (chars text.now) ≡ None) }
    ensures fault { IfErr result (λ fault. (later : Option GiveRefusal)
        → IsTold (text_fault_refusal (text_refusal (chars text.now)) later) fault) }
{
    match encode_text(alloc, text) {
        Ok(payload) => Ok(payload),
        Err(TextFault::NoMemory) => Err(GiveFault::NoMemory),
        Err(fault) => Err(GiveFault::BadText(fault)),
    }
}

/// The key of a text, or why it has none.
pub(crate) fn key_of_text(
    alloc: Global,
    table: &LifeTable,
    text: &str,
) -> Result<TextKey, GiveFault>
    ensures key { IfOk result (λ key. text_key table.now text.now ≡ Ok (key_view key)) }
    ensures fault { IfErr result (λ fault. (latest : Key → Option Latest)
        (count : ℕ → ℕ → ℕ) (moment version : ℕ)
        → IsTold (key_refusal_by table.now latest count moment version text.now
        (text_key table.now text.now)) fault) }
{
    match key_of(alloc, table, text) {
        Ok(key) => Ok(key),
        Err(KeyFault::FewWords) => Err(GiveFault::FewWords),
        Err(KeyFault::Unlisted) => Err(GiveFault::Unlisted),
        Err(KeyFault::NoMemory) => Err(GiveFault::NoMemory),
    }
}

/// What stands against a version at a moment: the form does not show it, it is too far ahead, or its life is over.
pub(crate) fn timing_fault(
    moment: Moment,
    version: Moment,
    form: TimeForm,
    life: u64,
) -> Option<GiveFault>
    requires { life ≤ thirty_days }
    ensures tells { (kept : List (Option ℕ)) (later : Option GiveRefusal)
        → IfSome result (IsTold (version_refusal moment (timing form version life) kept later)) }
    ensures passes { (kept : List (Option ℕ)) (later : Option GiveRefusal)
        → IfNone result (version_refusal moment (timing form version life) kept later
        ≡ age_refusal version kept later) }
    ensures shown { IfNone result (IsTrue (shows form version)) }
{
    if !shows(form, version) {
        return Some(GiveFault::Coarse);
    }
    if moment.seconds() + 60 < version.seconds() {
        return Some(GiveFault::Ahead);
    }
    if version.seconds() + life <= moment.seconds() {
        return Some(GiveFault::Expired);
    }
    None
}

/// What stands against a version of a key: it is not above the version that is kept.
pub(crate) fn age_fault(version: Moment, kept: Option<Moment>) -> Option<GiveFault>
    ensures tells { (more : List (Option ℕ)) (later : Option GiveRefusal)
        → IfSome result (IsTold (age_refusal version (kept ∷ more) later)) }
    ensures passes { (more : List (Option ℕ)) (later : Option GiveRefusal)
        → IfNone result (age_refusal version (kept ∷ more) later
        ≡ age_refusal version more later) }
{
    if let Some(kept) = kept {
        if version.seconds() <= kept.seconds() {
            return Some(GiveFault::NotNewer { kept });
        }
    }
    None
}

/// The row of a radar product, or what stands against a version of blocks of it before their keys are looked at.
pub(crate) fn radar_validity(
    table: &LifeTable,
    product: u16,
    is_named: bool,
    moment: Moment,
    version: Moment,
) -> Result<Validity, GiveFault>
    ensures row { IfOk result (λ v. radar_row table.now product
        ≡ Some (radar product v.life v.form)) }
    ensures version { IfOk result (λ v. v.version ≡ version) }
    ensures named { OnOk result (is_named ≡ true) }
    ensures known { OnOk result (product < 2048) }
    ensures passes { (kept : List (Option ℕ)) → OnOk result (radar_refusal moment version is_named
        kept (radar_row table.now product) ≡ age_refusal version kept None) }
    ensures fault { (kept : List (Option ℕ)) → IfErr result (IsTold (radar_refusal moment version
        is_named kept (radar_row table.now product))) }
{
    let Some(row) = table.radar_row(product) else {
        return Err(GiveFault::Unlisted);
    };
    if !is_named {
        return Err(GiveFault::BadBlock);
    }
    if let Some(fault) = timing_fault(moment, version, row.form, row.life) {
        return Err(fault);
    }
    Ok(Validity {
        version,
        form: row.form,
        life: row.life,
    })
}

/// Whether a record can name a block with its cells.
pub(crate) fn is_block(key: &BlockKey) -> bool
    ensures { result ≡ is_block key.now }
{
    key.scale <= 2 && key.number < 1_048_576
}

/// Whether records can name these empty blocks of a scale.
pub(crate) fn are_blanks(scale: u8, numbers: &[u32]) -> bool
    ensures { result ≡ are_blanks scale numbers.now }
{
    scale <= 2 && !numbers.is_empty() && numbers.len() <= MOST_BLANKS && are_low_and_rise(numbers)
}

/// Whether each number is above the one before it, and all are numbers of blocks that may be empty.
fn are_low_and_rise(numbers: &[u32]) -> bool
    ensures { result ≡ (rise numbers.now && list_all (λ n. nat_lt n first_high) numbers.now) }
{
    let mut least = 0;
    for number in numbers {
        if *number < least || *number >= FIRST_HIGH {
            return false;
        }
        least = *number + 1;
    }
    true
}

/// The file number of a payload of a version and a product, by how many items in segments these had; 0 where it is sent
/// whole.
pub(crate) fn file_number(
    files: &Files,
    version: Moment,
    product: u16,
    is_segmented: bool,
) -> Result<u16, GiveFault>
    ensures number { IfOk result (λ number. number
        ≡ (if is_segmented then count_at files.now version product else 0)) }
    ensures few { IfOk result (λ number. number < file_numbers) }
    ensures none { (w : Weather) → is_segmented ≡ items.is_segmented w
        → OnOk result (count_refusal w (count_at files.now version product) ≡ None) }
    ensures fault { (w : Weather) → is_segmented ≡ items.is_segmented w
        → IfErr result (IsTold (count_refusal w (count_at files.now version product))) }
{
    if is_segmented {
        number_of_segmented(files.of(version, product))
    } else {
        Ok(0)
    }
}

/// The file number of a payload in segments, by how many items in segments there were before.
fn number_of_segmented(count: u64) -> Result<u16, GiveFault>
    ensures number { IfOk result (λ number. number ≡ count) }
    ensures few { IfOk result (λ number. number < file_numbers) }
    ensures none { (w : Weather) → true ≡ items.is_segmented w
        → OnOk result (count_refusal w count ≡ None) }
    ensures fault { (w : Weather) → true ≡ items.is_segmented w
        → IfErr result (IsTold (count_refusal w count)) }
{
    if count < FILE_NUMBERS {
        Ok(count as u16)
    } else {
        Err(GiveFault::NoFile)
    }
}
