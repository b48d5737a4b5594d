//! What a run has done.

/// What a run has done.
#[derive(Clone, Copy, Debug, PartialEq, Eq)]
pub struct Done {
    /// How many rows were written: none by a report.
    pub rows: u32,
    /// How many bytes were written, of a picture or a report; those of a document are not counted, and this is 0.
    pub bytes: u64,
    /// How many strokes the plot has, without the edges of areas, those of pens that are not drawn among them.
    pub strokes: usize,
    /// How many areas it has, in the profile full; those of pens that are not drawn are among them.
    pub areas: usize,
    /// How many images it has, in the profile full.
    pub images: usize,
    /// How many notes there are on the plot.
    pub notes: usize,
}
