//! Who acts on the lines of a script.

/// A ground and a receiver with the frames between them, a ground alone, a receiver alone, or what
/// hands frames on to displays.
#[derive(Clone, Copy, Debug, PartialEq, Eq)]
pub(crate) enum Party {
    Link,
    Ground,
    Receive,
    Gdl,
}
