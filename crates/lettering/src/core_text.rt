//! Texts whose labels are the stick font's.
ghost use Rattle.std.specs.Prelude.{◌≡◌};
ghost use Rattle.std.specs.List.{list_all};
ghost use Rattle.lettering.specs.CoreTexts.{is_core_byte, is_core_text};

use character_sets::{Encoding, Sets};

/// Whether a text has only bytes of ASCII that core and the profile full draw alike, so no small letter, BS,
/// HT, SO or SI, and `encoding` reads them as ASCII after a plot has chosen `sets`.
/// `laws::usual_labels_are_turned` says what holds of such texts.
pub fn is_core_text(encoding: Encoding, sets: Sets, text: &[u8]) -> bool
    ensures { result ≡ is_core_text encoding sets text.now }
{
    encoding.reads_ascii(sets) && has_core_bytes(text)
}

// Whether a text has only such bytes.
fn has_core_bytes(text: &[u8]) -> bool
    ensures { result ≡ list_all is_core_byte text.now }
{
    text.iter().all(|byte| is_core_byte(*byte))
}

// Whether a byte is one of them.
fn is_core_byte(byte: u8) -> bool
    ensures { result ≡ is_core_byte byte }
{
    match byte {
        8 | 9 | 14 | 15 | b'a'..=b'z' => false,
        _ => byte < 128,
    }
}
