//! The inks of a picture.
ghost use Rattle.std.specs.Prelude.{◌≡◌, ◌≤◌, List, length};
ghost use Rattle.picture_out.specs.Inks.{ink_at};

/// The pen of a stroke, 0 to 255, and its colour, each part 0 to 255 as in Netpbm's P6.
#[derive(Clone, Copy, Debug, PartialEq, Eq)]
pub struct Ink {
    pub pen: u8,
    pub red: u8,
    pub green: u8,
    pub blue: u8,
}

/// A list of inks, one for each stroke. A cell of a picture is 0, or the position of its ink in
/// this list, counted from 1.
pub trait Inks {
    ghost use Rattle.picture_out.specs.declared.inks.Ink.{Ink};

    /// The inks, in the order of their positions.
    ghost inks: { Self → List Ink };

    /// How many inks there are.
    fn count(&self) -> u32
        ensures { result ≡ length (inks self.now) };

    /// The ink at position `n`, from 1 up to and including the count.
    fn ink(&self, n: u32) -> Ink
        requires from_1 { 1 ≤ n }
        requires in_list { n ≤ length (inks self.now) }
        ensures { result ≡ ink_at (inks self.now) n };
}
