//! Laws of the definitions, for the crates above: each is the contract of a function that does nothing.
ghost use Rattle.std.specs.Prelude.{◌≡◌, ℕ, ◌↔◌, List, Some, None, Ok};
ghost use Rattle.life_table.specs.LifeTable.{LifeTable, longest, default_table};
ghost use Rattle.life_table.specs.Longest.{IsLifeOf, IsLongest, RadarsAreWithin, TextsAreWithin};
ghost use Rattle.life_table.specs.Rules.{IsTable};
ghost use Rattle.life_table.specs.DefaultDocument.{default_document};
ghost use Rattle.life_table.specs.TableIn.{table_in};

/// In a table that keeps the rules, the longest life of a product is there exactly where a look-up
/// finds a row of it. A row has this life, and none has a longer one.
pub fn longest_is_greatest()
    ensures longest { (table : LifeTable) (product life : ℕ) → IsTable table →
        (longest table product ≡ Some life) ↔ IsLongest table product life }
    ensures none { (table : LifeTable) (product : ℕ) → IsTable table →
        (longest table product ≡ None) ↔ ((life : ℕ) → ¬ IsLifeOf table product life) }
    ensures texts { TextsAreWithin }
    ensures radars { RadarsAreWithin }
{}

/// The default table and every table that a text writes keep the rules; and the default table is
/// the one that its document writes.
pub fn tables_keep_rules()
    ensures default { IsTable default_table }
    ensures document { table_in default_document ≡ Ok default_table }
    ensures read { (text : List ℕ) (table : LifeTable) →
        table_in text ≡ Ok table → IsTable table }
{}
