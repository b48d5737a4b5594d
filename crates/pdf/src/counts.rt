//! How many letters labels have.
ghost use Rattle.std.specs.Prelude.{◌≡◌, ◌≤◌, min, nat_le};
ghost use Rattle.pdf.specs.Texts.{letter_count, line_letters};

use labels::{Label, Line};

/// How many letters the labels of a document have at most.
pub const MOST_LETTERS: usize = 67_108_864;

/// Whether labels have at most `MOST_LETTERS` letters, as those of a document do.
pub fn has_few_letters(labels: &[Label]) -> bool
    ensures { result ≡ nat_le (letter_count labels.now) MOST_LETTERS }
{
    let mut count = 0;
    for label in labels {
        count = (count + letters_of(&label.lines)).min(MOST_LETTERS + 1);
    }
    count <= MOST_LETTERS
}

// How many letters lines have, or one more than labels may have if there are more.
fn letters_of(lines: &[Line]) -> usize
    ensures value { result ≡ min (line_letters lines.now) 67108865 }
    ensures most { result ≤ 67108865 }
{
    let mut count = 0;
    for line in lines {
        count = (count + line.text.len()).min(MOST_LETTERS + 1);
    }
    count
}
