//! The entries of a document, and the rows that are made of them.
ghost use Rattle.std.specs.Prelude.{◌≡◌, ◌≤◌, option_copied, map};
ghost use Rattle.std.specs.List.{list_all};
ghost use Rattle.toml.specs.View.{view};
ghost use Rattle.life_table.specs.Views.{text_view, radar_view, judged_view};
ghost use Rattle.life_table.specs.Document as document;
ghost use Rattle.life_table.specs.RowsOf as rows_of;

use crate::fault::RowFault;
use crate::rows::{JudgedText, KeptRadar, KeptText, earlier_text, has_radar, has_text};
use fisb_time::TimeForm;
use toml::Value;

const LONGEST_WORD: usize = 16;

// The greatest life of a row whose form has a date, and a day, in seconds.
const LONGEST: u64 = 2_592_000;

const DAY: u64 = 86_400;

// How many seconds two clocks may differ.
const LEAD: u64 = 60;

/// The number of members of a table, 0 of any other value.
pub(crate) fn member_count(value: &Value) -> usize
    ensures { result ≡ document.member_count (view value.now) }
{
    match value {
        Value::Table(table) => table.len(),
        _ => 0,
    }
}

/// The integer at a key.
pub(crate) fn integer_at(value: &Value, key: &str) -> Option<i64>
    ensures { result ≡ document.integer_at key.now (view value.now) }
{
    match value.get(key) {
        Some(found) => found.as_integer(),
        None => None,
    }
}

/// The text at a key.
pub(crate) fn text_at<'a>(value: &'a Value, key: &str) -> Option<&'a str>
    ensures { option_copied result ≡ document.text_at key.now (view value.now) }
{
    match value.get(key) {
        Some(found) => found.as_str(),
        None => None,
    }
}

/// Whether a word is 1 to 16 characters of A to Z, 0 to 9, `.`, `/` and `-`.
fn is_word(word: &str) -> bool
    ensures { result ≡ document.is_word word.now }
{
    let bytes = word.as_bytes();
    if bytes.is_empty() {
        return false;
    }
    if bytes.len() > LONGEST_WORD {
        return false;
    }
    are_word_bytes(bytes)
}

fn are_word_bytes(bytes: &[u8]) -> bool
    ensures { result ≡ list_all document.is_word_byte bytes.now }
{
    bytes.iter().all(|byte| is_word_byte(*byte))
}

fn is_word_byte(byte: u8) -> bool
    ensures { result ≡ document.is_word_byte byte }
{
    matches!(byte, b'A'..=b'Z' | b'0'..=b'9' | b'.' | b'/' | b'-')
}

/// The number of words of a key, 2 or 3.
fn key_words(words: i64) -> Option<u8>
    ensures { result ≡ document.key_words words }
{
    match words {
        2 => Some(2),
        3 => Some(3),
        _ => None,
    }
}

/// The form of a number from 0 to 3.
fn form_of(form: i64) -> Option<TimeForm>
    ensures { result ≡ document.form_of form }
{
    match form {
        0 => Some(TimeForm::Minute),
        1 => Some(TimeForm::Second),
        2 => Some(TimeForm::DayMinute),
        3 => Some(TimeForm::DaySecond),
        _ => None,
    }
}

/// A radar product, 63 or 64.
fn radar_product(product: i64) -> Option<u16>
    ensures { result ≡ document.radar_product product }
{
    match product {
        63 => Some(63),
        64 => Some(64),
        _ => None,
    }
}

/// The life, where the form allows it.
fn life_in(late: u64, form: TimeForm, life: i64) -> Option<u64>
    requires { late ≤ 43200 }
    ensures { result ≡ document.life_in late form life }
{
    if life < 1 {
        return None;
    }
    let life = life.unsigned_abs();
    let within = match form {
        TimeForm::Minute | TimeForm::Second => life + late + LEAD <= DAY,
        TimeForm::DayMinute | TimeForm::DaySecond => life <= LONGEST,
    };
    if within { Some(life) } else { None }
}

/// The row of reports that a value writes, after the rows before it.
#[tactic(auto, unfolding(crate::specs::RowsOf::text_entry))]
pub(crate) fn judged_text<'a>(
    late: u64,
    earlier: &[KeptText],
    row: &'a Value,
) -> Result<JudgedText<'a>, RowFault>
    requires { late ≤ 43200 }
    ensures { rows_of.map_answer judged_view result
        ≡ rows_of.text_entry late (map text_view earlier.now) (view row.now) }
{
    match member_count(row) {
        4 => own_text(late, earlier, row),
        2 => alike_text(earlier, row),
        _ => Err(RowFault::Shape),
    }
}

/// A row with words, a life and a form of its own.
#[tactic(auto, unfolding(crate::specs::RowsOf::own_text))]
fn own_text<'a>(late: u64, earlier: &[KeptText], row: &'a Value) -> Result<JudgedText<'a>, RowFault>
    requires { late ≤ 43200 }
    ensures { rows_of.map_answer judged_view result
        ≡ rows_of.own_text late (map text_view earlier.now) (view row.now) }
{
    let Some(word) = text_at(row, "type") else {
        return Err(RowFault::Shape);
    };
    let Some(words) = integer_at(row, "words") else {
        return Err(RowFault::Shape);
    };
    let Some(life) = integer_at(row, "life") else {
        return Err(RowFault::Shape);
    };
    let Some(form) = integer_at(row, "form") else {
        return Err(RowFault::Shape);
    };
    row_of_its_own(late, earlier, word, words, life, form)
}

fn row_of_its_own<'a>(
    late: u64,
    earlier: &[KeptText],
    word: &'a str,
    words: i64,
    life: i64,
    form: i64,
) -> Result<JudgedText<'a>, RowFault>
    requires { late ≤ 43200 }
    ensures { rows_of.map_answer judged_view result
        ≡ rows_of.row_of_its_own late (map text_view earlier.now) word.now words life form }
{
    if !is_word(word) {
        return Err(RowFault::Word);
    }
    if has_text(earlier, word) {
        return Err(RowFault::Twice);
    }
    let Some(words) = key_words(words) else {
        return Err(RowFault::Words);
    };
    let Some(form) = form_of(form) else {
        return Err(RowFault::Form);
    };
    let Some(life) = life_in(late, form, life) else {
        return Err(RowFault::Life);
    };
    Ok(JudgedText {
        word,
        kind: word,
        words,
        life,
        form,
    })
}

/// A row that is kept as an earlier one.
#[tactic(auto, unfolding(crate::specs::RowsOf::alike_text))]
fn alike_text<'a>(earlier: &[KeptText], row: &'a Value) -> Result<JudgedText<'a>, RowFault>
    ensures { rows_of.map_answer judged_view result
        ≡ rows_of.alike_text (map text_view earlier.now) (view row.now) }
{
    let Some(word) = text_at(row, "type") else {
        return Err(RowFault::Shape);
    };
    let Some(kind) = text_at(row, "as") else {
        return Err(RowFault::Shape);
    };
    if !is_word(word) || !is_word(kind) {
        return Err(RowFault::Word);
    }
    if has_text(earlier, word) {
        return Err(RowFault::Twice);
    }
    let Some(own) = earlier_text(earlier, kind) else {
        return Err(RowFault::As);
    };
    if own.kind.as_str() != kind {
        return Err(RowFault::As);
    }
    Ok(JudgedText {
        word,
        kind,
        words: own.words,
        life: own.life,
        form: own.form,
    })
}

/// The row of radar that a value writes, after the rows before it.
#[tactic(auto, unfolding(crate::specs::RowsOf::radar_entry))]
pub(crate) fn judged_radar(
    late: u64,
    earlier: &[KeptRadar],
    row: &Value,
) -> Result<KeptRadar, RowFault>
    requires { late ≤ 43200 }
    ensures { rows_of.map_answer radar_view result
        ≡ rows_of.radar_entry late (map radar_view earlier.now) (view row.now) }
{
    if member_count(row) != 3 {
        return Err(RowFault::Shape);
    }
    let Some(product) = integer_at(row, "product") else {
        return Err(RowFault::Shape);
    };
    let Some(life) = integer_at(row, "life") else {
        return Err(RowFault::Shape);
    };
    let Some(form) = integer_at(row, "form") else {
        return Err(RowFault::Shape);
    };
    let Some(product) = radar_product(product) else {
        return Err(RowFault::Product);
    };
    if has_radar(earlier, product) {
        return Err(RowFault::Twice);
    }
    let Some(form) = form_of(form) else {
        return Err(RowFault::Form);
    };
    let Some(life) = life_in(late, form, life) else {
        return Err(RowFault::Life);
    };
    Ok(KeptRadar {
        product,
        life,
        form,
    })
}
