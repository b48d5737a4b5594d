//! What holds of the signs of texts.
ghost use Rattle.character_sets.specs.Laws.{AsciiReadsAlike, SequencesAreUtf8, SignsAreFew, UnshiftedTextsAreAscii};

/// A text of ASCII has the same signs in Roman-8, ISO 8859-1, Windows-1252, PC-8, ASCII and UTF-8.
pub fn ascii_reads_alike()
    ensures { AsciiReadsAlike }
{}

/// A text of ASCII that selects no set has the signs of ASCII, if `Encoding::reads_ascii` says so.
pub fn unshifted_texts_are_ascii()
    ensures { UnshiftedTextsAreAscii }
{}

/// A text has at most as many signs as bytes.
pub fn signs_are_few()
    ensures { SignsAreFew }
{}

/// The sequences that are read in UTF-8 are those of the code points from U+0080 on that are no
/// surrogates, as std encodes them.
pub fn sequences_are_utf8()
    ensures { SequencesAreUtf8 }
{}
