//! Colours whose numbers in a palette are known.
ghost use Rattle.std.specs.Prelude.{◌≡◌, ℕ, List, [], ◌<◌, IfSome, length, get_or};
ghost use Rattle.rows.specs.Known.{AreKnown, HasNumber};

/// Some colours of a palette and their numbers: the most recent one, and 256 others. Most pixels have the colour of the one
/// before, and of the rest most have a colour that came recently, so they are found here without a search. Which of the 256
/// entries may have a colour depends on its channels.
#[derive(Clone, Copy)]
pub struct Known {
    pub(crate) last: [u8; 3],
    pub(crate) number: u8,
    pub(crate) colours: [[u8; 3]; 256],
    pub(crate) numbers: [u8; 256],
}

impl Known {
    /// The first colour of a palette.
    pub fn first(colour: [u8; 3]) -> Known
        ensures { (palette : List (List ℕ)) → 0 < length palette → get_or palette 0 [] ≡ colour → AreKnown palette result }
    {
        Known {
            last: colour,
            number: 0,
            colours: [colour; 256],
            numbers: [0; 256],
        }
    }

    /// The number of a colour, if it is known.
    #[inline(always)]
    pub fn number_of(&mut self, colour: [u8; 3]) -> Option<u8>
        ensures number { IfSome result (λ number. (palette : List (List ℕ)) → AreKnown palette self.old → HasNumber palette colour number) }
        ensures known { (palette : List (List ℕ)) → AreKnown palette self.old → AreKnown palette self.new }
    {
        if colour == self.last {
            return Some(self.number);
        }
        let at = entry_of(colour);
        if colour != self.colours[at] {
            return None;
        }
        self.last = colour;
        self.number = self.numbers[at];
        Some(self.number)
    }

    /// Keeps a colour and its number.
    pub fn keep(&mut self, colour: [u8; 3], number: u8)
        ensures { (palette : List (List ℕ)) → AreKnown palette self.old → HasNumber palette colour number → AreKnown palette self.new }
    {
        let at = entry_of(colour);
        self.last = colour;
        self.number = number;
        self.colours[at] = colour;
        self.numbers[at] = number;
    }
}

// Which entry may have a colour.
#[inline(always)]
fn entry_of(colour: [u8; 3]) -> usize
    ensures { result < 256 }
{
    (7 * colour[0] as usize + 31 * colour[1] as usize + 101 * colour[2] as usize) % 256
}
