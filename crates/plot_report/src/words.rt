//! Words of a report.
ghost use Rattle.std.specs.Prelude.{◌≡◌, ◌∷◌};
ghost use Rattle.pieces.specs.Texts.{IsSound, Puts};
ghost use Rattle.plot_report.specs.Report.{space};

use devices::Sink;
use itoa::Integer;
use pieces::Text;

// Puts a space and a word.
pub(crate) fn put_word<K: Sink>(text: &mut Text<'_, K>, word: &[u8])
    requires sound { IsSound K.state text.old }
    ensures puts { Puts K.state text.old text.new (space ∷ word.now) }
{
    text.put(b" ");
    text.put(word);
}

// Puts a space and a number in decimal.
pub(crate) fn put_number<K: Sink, I: Integer>(text: &mut Text<'_, K>, number: I)
    requires sound { IsSound K.state text.old }
    ensures puts { Puts K.state text.old text.new (space ∷ I.text number) }
{
    text.put(b" ");
    text.put_number(number);
}
