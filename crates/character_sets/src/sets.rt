//! The standard and the alternate set, and which of them is selected.
ghost use Rattle.std.specs.Prelude.{◌≡◌};
ghost use Rattle.character_sets.specs.Signs.{selected, sets_after, shifted};

use crate::set::CharacterSet;

/// Which of the two sets is selected.
#[derive(Clone, Copy, Debug, PartialEq, Eq, Drop)]
pub enum Selection {
    Standard,
    Alternate,
}

/// The sets that a plot has chosen (HP-GL/2: SD and AD; HP-GL: CS and CA), and which of them is selected
/// (SS and SA, and the bytes 15 and 14 of texts).
#[derive(Clone, Copy, Debug, PartialEq, Eq, Drop)]
pub struct Sets {
    pub standard: CharacterSet,
    pub alternate: CharacterSet,
    pub selection: Selection,
}

const SHIFT_OUT: u8 = 14;

const SHIFT_IN: u8 = 15;

impl Sets {
    /// Those of a plot at its start.
    pub const START: Sets = Sets {
        standard: CharacterSet::Roman8,
        alternate: CharacterSet::Roman8,
        selection: Selection::Standard,
    };

    /// The set that is selected.
    pub fn selected(self) -> CharacterSet
        ensures { result ≡ selected self }
    {
        match self.selection {
            Selection::Standard => self.standard,
            Selection::Alternate => self.alternate,
        }
    }

    /// The sets after a text, in which the byte 14 selects the alternate set and 15 the standard set.
    pub fn after(self, text: &[u8]) -> Sets
        ensures { result ≡ sets_after self text.now }
    {
        let mut sets = self;
        for byte in text {
            sets = sets.shifted(*byte);
        }
        sets
    }

    // The sets after a byte.
    pub(crate) fn shifted(self, byte: u8) -> Sets
        ensures { result ≡ shifted self byte }
    {
        match byte {
            SHIFT_OUT => Sets {
                selection: Selection::Alternate,
                ..self
            },
            SHIFT_IN => Sets {
                selection: Selection::Standard,
                ..self
            },
            _ => self,
        }
    }
}
