//! Colours.
ghost use Rattle.std.specs.Prelude.{◌≡◌};
ghost use Rattle.plot_page.specs.Colours.{is_white};

/// A colour: red, green and blue, each 0 (none of it) to 255 (all of it).
#[derive(Clone, Copy, Debug, PartialEq, Eq)]
pub struct Colour {
    pub red: u8,
    pub green: u8,
    pub blue: u8,
}

impl Colour {
    /// Whether it is white.
    pub fn is_white(self) -> bool
        ensures { result ≡ is_white self }
    {
        self.red == 255 && self.green == 255 && self.blue == 255
    }
}
