//! Why a document is no table.

use thiserror::Error;

/// What is wrong with a row. Row 0 is the document itself, the `text` rows follow in their order, and the `radar` rows after
/// them.
#[derive(Clone, Copy, Debug, PartialEq, Eq, Error)]
pub enum RowFault {
    /// A key is missing, unknown or of another kind of value.
    #[error("a key is missing, unknown or of another kind of value")]
    Shape,
    /// The version is not 1.
    #[error("the version is not 1")]
    Version,
    /// `late` is not from 0 to 43,200 seconds.
    #[error("late is not from 0 to 43200")]
    Late,
    /// There are more than 64 `text` rows or more than 2 `radar` rows.
    #[error("there are more than 64 text rows or more than 2 radar rows")]
    Rows,
    /// `type` or `as` is not 1 to 16 characters of A to Z, 0 to 9, `.`, `/` and `-`.
    #[error("type or as is not 1 to 16 characters of A to Z, 0 to 9, '.', '/' and '-'")]
    Word,
    /// An earlier row has the same type, or the same product.
    #[error("an earlier row has the same type or product")]
    Twice,
    /// `as` is not the type of an earlier row without `as`.
    #[error("as is not the type of an earlier row without as")]
    As,
    /// `words` is neither 2 nor 3.
    #[error("words is neither 2 nor 3")]
    Words,
    /// `form` is not from 0 to 3.
    #[error("form is not from 0 to 3")]
    Form,
    /// The life is below 1 second, or longer than the form allows.
    #[error("the life is below 1 second or longer than the form allows")]
    Life,
    /// The product is neither 63 nor 64.
    #[error("the product is neither 63 nor 64")]
    Product,
}

/// Why a text is no table.
#[derive(Clone, Copy, Debug, PartialEq, Eq, Error)]
pub enum TableFault {
    /// The text is no TOML document.
    #[error("the text is no TOML document")]
    NotToml,
    /// The first faulty row, and its first fault.
    #[error("row {row}: {reason}")]
    BadRow { row: u32, reason: RowFault },
    /// Memory ran out.
    #[error("no memory is left")]
    NoMemory,
}
