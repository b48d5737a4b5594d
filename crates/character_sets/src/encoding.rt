//! How the bytes of texts are read.
ghost use Rattle.std.specs.Prelude.{◌≡◌, ◌≤◌, length};
ghost use Rattle.character_sets.specs.Ascii.{reads_ascii};
ghost use Rattle.character_sets.specs.Texts.{only, signs};

use crate::set::CharacterSet;
use crate::sets::{Selection, Sets};
use crate::signs::Signs;
use crate::unread::{By, Unread};

/// How the bytes of a plot's texts are read: as the user says.
#[derive(Clone, Copy, Debug, PartialEq, Eq, Drop)]
pub enum Encoding {
    /// By the sets that the plot chooses.
    ByPlot,
    /// By one set, whatever the plot chooses.
    Always(CharacterSet),
    /// As UTF-8, whatever the plot chooses.
    Utf8,
}

impl Encoding {
    /// The signs of a text, if the plot has chosen `sets` before it. `Sets::after` says what is selected
    /// after the text.
    #[tactic(auto, using(crate::proofs::SignCounts::few_by_sets, crate::proofs::SignCounts::few_in_utf8))]
    pub fn signs<'a>(self, sets: Sets, text: &'a [u8]) -> Signs<'a>
        ensures value { result ≡ signs self sets text.now }
        ensures few { length result ≤ length text.now }
    {
        let by = match self {
            Encoding::ByPlot => By::Sets(sets),
            Encoding::Always(set) => By::Sets(only(set)),
            Encoding::Utf8 => By::Utf8,
        };
        Signs::of(Unread { by, rest: text })
    }

    /// Whether the bytes of ASCII are its characters, if the plot has chosen `sets`.
    pub fn reads_ascii(self, sets: Sets) -> bool
        ensures { result ≡ reads_ascii self sets }
    {
        match self {
            Encoding::ByPlot => sets.selected().has_ascii(),
            Encoding::Always(set) => set.has_ascii(),
            Encoding::Utf8 => true,
        }
    }
}

// One set only.
fn only(set: CharacterSet) -> Sets
    ensures { result ≡ only set }
{
    Sets {
        standard: set,
        alternate: set,
        selection: Selection::Standard,
    }
}
