//! The ranges of colours.

/// The numbers of a red, green or blue that are black and white: whole, within 2^36 of 0, and not the same.
#[derive(Clone, Copy, Debug)]
pub struct ColourRange {
    pub black: i64,
    pub white: i64,
}

/// What CR (Set Color Range) sets: the ranges in which PC (Pen Color Assignment) names colours.
#[derive(Clone, Copy, Debug)]
pub struct ColourRanges {
    pub red: ColourRange,
    pub green: ColourRange,
    pub blue: ColourRange,
}

impl ColourRanges {
    ghost use Rattle.std.specs.Prelude.{◌≡◌};
    ghost use Rattle.full_settings.specs.ColourRanges.{usual_ranges, is_usual, IsColourRanges};

    /// What is set at the start: 0 to 255.
    pub fn usual() -> ColourRanges
        ensures value { result ≡ usual_ranges }
        ensures sound { IsColourRanges result }
    {
        let range = ColourRange {
            black: 0,
            white: 255,
        };
        ColourRanges {
            red: range,
            green: range,
            blue: range,
        }
    }

    /// Whether all ranges are 0 to 255.
    pub fn is_usual(&self) -> bool
        ensures { result ≡ is_usual self.now }
    {
        self.red.is_usual() && self.green.is_usual() && self.blue.is_usual()
    }
}

impl ColourRange {
    ghost use Rattle.std.specs.Prelude.{◌≡◌};
    ghost use Rattle.full_settings.specs.ColourRanges.{is_usual_range};

    fn is_usual(&self) -> bool
        ensures { result ≡ is_usual_range self.now }
    {
        self.black == 0 && self.white == 255
    }
}
