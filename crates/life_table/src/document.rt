//! The table that a document writes.
ghost use Rattle.std.specs.Prelude.{◌≡◌, ◌≢◌, ◌≤◌, Ok, IfOk, IfErr, option_map, option_and_then};
ghost use Rattle.std.specs.Prelude.{[], map, length};
ghost use Rattle.toml.specs.Data.{as_array};
ghost use Rattle.toml.specs.View.{view, items_view};
ghost use Rattle.std.specs.List.{list_all};
ghost use Rattle.life_table.specs.Views.{text_view, radar_view, head_view, IsFault};
ghost use Rattle.life_table.specs.Document as document;
ghost use Rattle.life_table.specs.RowsOf as rows_of;
ghost use Rattle.life_table.specs.TableIn as table_in;

use crate::entries::{integer_at, judged_radar, judged_text, member_count};
use crate::fault::{RowFault, TableFault};
use crate::rows::{KeptRadar, KeptText};
use crate::table::LifeTable;
use std::alloc::{AllocError, Global};
use toml::Value;

const TEXT_ROWS: usize = 64;

const RADAR_ROWS: usize = 2;

const LATEST: u64 = 43_200;

/// The document's own entries.
#[derive(Clone, Copy)]
pub(crate) struct Head<'a> {
    late: u64,
    texts: &'a [Value],
    radars: &'a [Value],
}

impl LifeTable {
    /// The table that a TOML document writes.
    ///
    /// # Errors
    ///
    /// `NotToml` where the text is no TOML document; `BadRow` with the first faulty row and its first fault; `NoMemory` where
    /// memory runs out.
    pub fn read(alloc: Global, text: &[u8]) -> Result<LifeTable, TableFault>
        ensures table { IfOk result (λ table. table_in.table_in text.now ≡ Ok table) }
        ensures fault { IfErr result (λ fault. IsFault fault (table_in.table_in text.now)) }
    {
        match toml::table_from_slice(alloc, text) {
            Ok(tree) => table_of_tree(alloc, &Value::Table(tree)),
            Err(error) => {
                if error.is_memory() {
                    return Err(TableFault::NoMemory);
                }
                Err(TableFault::NotToml)
            }
        }
    }
}

/// The table of a document's tree, or its first faulty row.
fn table_of_tree(alloc: Global, tree: &Value) -> Result<LifeTable, TableFault>
    ensures table { IfOk result (λ table. table_in.table_of_tree (view tree.now) ≡ Ok table) }
    ensures fault { IfErr result
        (λ fault. fault ≢ TableFault.NoMemory
        → IsFault fault (table_in.table_of_tree (view tree.now))) }
{
    let head = match head_of(tree) {
        Ok(head) => head,
        Err(reason) => return Err(TableFault::BadRow { row: 0, reason }),
    };
    let texts = match text_rows(alloc, head.late, head.texts) {
        Ok(texts) => texts,
        Err(fault) => return Err(fault),
    };
    let radars = match radar_rows(alloc, head.late, texts.len(), head.radars) {
        Ok(radars) => radars,
        Err(fault) => return Err(fault),
    };
    match LifeTable::of_rows(alloc, head.late, texts, radars) {
        Ok(table) => Ok(table),
        Err(AllocError) => Err(TableFault::NoMemory),
    }
}

/// The document's own entries, or its first fault.
#[tactic(auto, using(crate::proofs::Trees::count_items), unfolding(crate::specs::Document::head))]
fn head_of(tree: &Value) -> Result<Head<'_>, RowFault>
    ensures head { rows_of.map_answer head_view result ≡ document.head (view tree.now) }
    ensures late { IfOk result (λ head. head.late ≤ 43200) }
    ensures texts { IfOk result (λ head. length head.texts.now ≤ 64) }
    ensures radars { IfOk result (λ head. length head.radars.now ≤ 2) }
{
    let Some(version) = integer_at(tree, "version") else {
        return Err(RowFault::Shape);
    };
    let Some(late) = integer_at(tree, "late") else {
        return Err(RowFault::Shape);
    };
    let Some(texts) = tables_at(tree, "text") else {
        return Err(RowFault::Shape);
    };
    let Some(radars) = tables_at(tree, "radar") else {
        return Err(RowFault::Shape);
    };
    if member_count(tree) != known_keys(tree) {
        return Err(RowFault::Shape);
    }
    if version != 1 {
        return Err(RowFault::Version);
    }
    if late < 0 || late.unsigned_abs() > LATEST {
        return Err(RowFault::Late);
    }
    if texts.len() > TEXT_ROWS {
        return Err(RowFault::Rows);
    }
    if radars.len() > RADAR_ROWS {
        return Err(RowFault::Rows);
    }
    Ok(Head {
        late: late.unsigned_abs(),
        texts,
        radars,
    })
}

/// How many of the keys of a document stand in it, where it has the two that it needs.
fn known_keys(tree: &Value) -> usize
    ensures { result ≡ document.known_keys (view tree.now) }
{
    2 + usize::from(tree.get("text").is_some()) + usize::from(tree.get("radar").is_some())
}

/// The array of tables at a key, which may be absent.
fn tables_at<'a>(tree: &'a Value, key: &str) -> Option<&'a [Value]>
    ensures { option_map (λ rows. items_view rows.now) result
        ≡ document.tables_at key.now (view tree.now) }
{
    match tree.get(key) {
        Some(value) => tables_of(value),
        None => Some(&[]),
    }
}

/// The members of an array of tables.
#[tactic(auto, using(crate::proofs::Trees::tables_view))]
fn tables_of(value: &Value) -> Option<&[Value]>
    ensures { option_map (λ rows. items_view rows.now) result
        ≡ option_and_then document.rows_in (as_array (view value.now)) }
{
    let Some(rows) = value.as_array() else {
        return None;
    };
    let rows = rows.as_slice();
    if all_tables(rows) { Some(rows) } else { None }
}

fn all_tables(rows: &[Value]) -> bool
    ensures { result ≡ list_all (λ v. document.is_table (view v)) rows.now }
{
    rows.iter().all(|row| row.is_table())
}

/// The rows of reports, or the first faulty one.
fn text_rows(alloc: Global, late: u64, rows: &[Value]) -> Result<Vec<KeptText>, TableFault>
    requires late { late ≤ 43200 }
    requires few_rows { length rows.now ≤ 64 }
    ensures few { IfOk result (λ texts. length texts.items ≤ 64) }
    ensures rows { IfOk result
        (λ texts. rows_of.text_rows late [] (items_view rows.now)
        ≡ Ok (map text_view texts.items)) }
    ensures fault { IfErr result
        (λ fault. fault ≢ TableFault.NoMemory
        → IsFault fault (rows_of.text_rows late [] (items_view rows.now))) }
{
    let mut texts = Vec::with_capacity(alloc, rows.len()).map_err(|_| TableFault::NoMemory)?;
    let mut rest = rows;
    while let [row, more @ ..] = rest {
        let judged = match judged_text(late, texts.as_slice(), row) {
            Ok(judged) => judged,
            Err(reason) => {
                return Err(TableFault::BadRow {
                    row: texts.len() as u32 + 1,
                    reason,
                });
            }
        };
        let kept = judged.to_kept(alloc).map_err(|_| TableFault::NoMemory)?;
        texts.push(kept).map_err(|_| TableFault::NoMemory)?;
        rest = more;
    }
    Ok(texts)
}

/// The rows of radar after so many rows of reports, or the first faulty one.
fn radar_rows(
    alloc: Global,
    late: u64,
    before: usize,
    rows: &[Value],
) -> Result<Vec<KeptRadar>, TableFault>
    requires late { late ≤ 43200 }
    requires few_before { before ≤ 64 }
    requires few_rows { length rows.now ≤ 2 }
    ensures few { IfOk result (λ radars. length radars.items ≤ 2) }
    ensures rows { IfOk result
        (λ radars. rows_of.radar_rows late before [] (items_view rows.now)
        ≡ Ok (map radar_view radars.items)) }
    ensures fault { IfErr result
        (λ fault. fault ≢ TableFault.NoMemory
        → IsFault fault (rows_of.radar_rows late before [] (items_view rows.now))) }
{
    let mut radars = Vec::with_capacity(alloc, rows.len()).map_err(|_| TableFault::NoMemory)?;
    let mut rest = rows;
    while let [row, more @ ..] = rest {
        let kept = match judged_radar(late, radars.as_slice(), row) {
            Ok(kept) => kept,
            Err(reason) => {
                return Err(TableFault::BadRow {
                    row: (before + radars.len()) as u32 + 1,
                    reason,
                });
            }
        };
        radars.push(kept).map_err(|_| TableFault::NoMemory)?;
        rest = more;
    }
    Ok(radars)
}
