//! The values of an APDU.

use fisb_time::{TimeFields, TimeForm};

/// Which segment of which file a payload is.
#[derive(Clone, Copy, Debug, PartialEq, Eq)]
pub struct Seg {
    /// The file's number, below 1,024.
    pub file: u16,
    /// How many segments the file has, 1 to 511.
    pub count: u16,
    /// The segment's number, 1 to the count.
    pub number: u16,
}

/// An application protocol data unit.
#[derive(Clone, Copy, Debug, PartialEq, Eq)]
pub struct Apdu<'a> {
    /// The product, below 2,048.
    pub product: u16,
    /// Which fields of the time are sent.
    pub form: TimeForm,
    /// The time. A field that the form lacks is 0.
    pub time: TimeFields,
    /// Which segment the payload is, where the header says so.
    pub seg: Option<Seg>,
    /// The bytes after the header.
    pub payload: &'a [u8],
}
