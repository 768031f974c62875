//! The rows of a table: as it keeps them, and as it lends them.
ghost use Rattle.std.specs.Prelude.{◌≡◌, IfOk, Some, None, option_map, string_bytes, find, filter};
ghost use Rattle.std.specs.Prelude.{fold, map, ◌==◌, is_some};
ghost use Rattle.std.specs.Str.{bytes_eq};
ghost use Rattle.life_table.specs.LifeTable.{row};
ghost use Rattle.life_table.specs.Views.{text_view, radar_view, judged_view, greater};

use fisb_time::TimeForm;
use std::alloc::{AllocError, Global};

/// The row of a type of report.
#[derive(Clone, Copy, Debug)]
pub struct TextRow<'a> {
    /// The type that keys name: the type of the row itself, or the one that it is kept as.
    pub kind: &'a str,
    /// How many words make a key, the type among them: 2 or 3.
    pub words: u8,
    /// How long a report lives, in seconds.
    pub life: u64,
    /// The form of the time field.
    pub form: TimeForm,
}

/// The row of a radar product.
#[derive(Clone, Copy, Debug, PartialEq, Eq)]
pub struct RadarRow {
    /// How long a block lives, in seconds.
    pub life: u64,
    /// The form of the time field.
    pub form: TimeForm,
}

/// A row of reports as the table keeps it.
#[derive(Debug, Drop)]
pub(crate) struct KeptText {
    pub(crate) word: String,
    pub(crate) kind: String,
    pub(crate) words: u8,
    pub(crate) life: u64,
    pub(crate) form: TimeForm,
}

/// A row of radar as the table keeps it.
#[derive(Clone, Copy, Debug)]
pub(crate) struct KeptRadar {
    pub(crate) product: u16,
    pub(crate) life: u64,
    pub(crate) form: TimeForm,
}

impl KeptText {
    /// A row of copied words.
    pub(crate) fn new(
        alloc: Global,
        word: &str,
        kind: &str,
        words: u8,
        life: u64,
        form: TimeForm,
    ) -> Result<KeptText, AllocError>
        ensures { IfOk result (λ kept. text_view kept ≡ row word.now kind.now words life form) }
    {
        Ok(KeptText {
            word: String::from_str(alloc, word)?,
            kind: String::from_str(alloc, kind)?,
            words,
            life,
            form,
        })
    }
}

/// A row of reports as a document writes it.
#[derive(Clone, Copy)]
pub(crate) struct JudgedText<'a> {
    pub(crate) word: &'a str,
    pub(crate) kind: &'a str,
    pub(crate) words: u8,
    pub(crate) life: u64,
    pub(crate) form: TimeForm,
}

impl JudgedText<'_> {
    /// The row with its words copied.
    pub(crate) fn to_kept(&self, alloc: Global) -> Result<KeptText, AllocError>
        ensures { IfOk result (λ kept. text_view kept ≡ judged_view self.now) }
    {
        KeptText::new(
            alloc, self.word, self.kind, self.words, self.life, self.form,
        )
    }
}

/// The row of reports that begin with this word.
pub(crate) fn text_of<'a>(rows: &'a [KeptText], word: &str) -> Option<&'a KeptText>
    ensures { option_map (λ r. r.now) result
        ≡ find (λ k. bytes_eq (string_bytes k.word) word.now) rows.now }
{
    rows.iter().find(|row| row.word.as_str() == word)
}

/// The row of a radar product.
pub(crate) fn radar_of(rows: &[KeptRadar], product: u16) -> Option<&KeptRadar>
    ensures { option_map (λ r. r.now) result ≡ find (λ k. k.product == product) rows.now }
{
    rows.iter().find(|row| row.product == product)
}

/// Whether a row has this type.
pub(crate) fn has_text(rows: &[KeptText], word: &str) -> bool
    ensures { result ≡ is_some (find (λ r. bytes_eq r.word word.now) (map text_view rows.now)) }
{
    text_of(rows, word).is_some()
}

/// Whether a row has this product.
pub(crate) fn has_radar(rows: &[KeptRadar], product: u16) -> bool
    ensures { result ≡ is_some (find (λ r. r.product == product) (map radar_view rows.now)) }
{
    radar_of(rows, product).is_some()
}

/// The row of this type, as the table shows it.
pub(crate) fn earlier_text<'a>(rows: &'a [KeptText], word: &str) -> Option<&'a KeptText>
    ensures { option_map (λ r. text_view r.now) result
        ≡ find (λ r. bytes_eq r.word word.now) (map text_view rows.now) }
{
    text_of(rows, word)
}

/// The greatest life of some rows of reports.
pub(crate) fn greatest_text_life(rows: &[KeptText]) -> Option<u64>
    ensures { result ≡ fold (λ best k. Some (greater best k.life)) None rows.now }
{
    rows.iter()
        .fold(None, |best, row| Some(greater(best, row.life)))
}

/// The greatest life of a radar product's rows.
pub(crate) fn greatest_radar_life(rows: &[KeptRadar], product: u16) -> Option<u64>
    ensures { result ≡ fold (λ best k. Some (greater best k.life)) None
        (filter (λ k. k.product == product) rows.now) }
{
    rows.iter()
        .filter(|row| row.product == product)
        .fold(None, |best, row| Some(greater(best, row.life)))
}

fn greater(best: Option<u64>, life: u64) -> u64
    ensures { result ≡ greater best life }
{
    best.unwrap_or(0).max(life)
}
