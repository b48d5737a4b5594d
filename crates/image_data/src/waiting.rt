//! Bytes that wait for others, so that three become four letters.

/// Bytes of a text in base64 whose letters are not complete.
#[derive(Clone, Copy)]
pub(crate) enum Waiting {
    Empty,
    One(u8),
    Two(u8, u8),
}
