//! What a document says besides its strokes.

/// How many bytes a title has at most that is kept.
pub(crate) const MOST_CHARACTERS: usize = 900;

/// What a document says besides its strokes.
#[derive(Clone, Copy)]
pub struct Naming<'a> {
    /// The version of the program that makes the document, without parentheses and backslashes.
    pub version: &'a str,
    /// The title. An empty one is none, and neither is one of more than 900 bytes. An SVG and a DXF have none.
    pub title: &'a str,
}

impl Naming<'static> {
    /// No version and no title.
    pub const NONE: Naming<'static> = Naming {
        version: "",
        title: "",
    };
}
