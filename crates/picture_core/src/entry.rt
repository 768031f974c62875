//! An entry of a picture.

use crate::key::Key;
use crate::shown::Shown;
use fisb_time::Moment;

/// What a picture shows under a key, and of which version it is.
#[derive(Debug, Drop)]
pub struct Entry {
    /// What names it.
    pub key: Key,
    /// The moment of its version.
    pub version: Moment,
    /// What is shown.
    pub value: Shown,
}
