//! Objects, of which it is noted where they begin.
ghost use Rattle.std.specs.Prelude.{◌≡◌, ◌+◌, ◌-◌, ◌^◌, ◌<◌, ◌++◌, [], ◌∷◌, length, take};
ghost use Rattle.pieces.specs.Texts.{IsSound, Puts, count_of};
ghost use Rattle.pdf.specs.Objects.{reference_text};
ghost use Rattle.pdf.specs.Writings.{Adds, object_end, object_start};

use devices::Sink;
use pieces::Text;

// Puts an object after `before` others, and notes where it begins.
pub(crate) fn put_object<K: Sink>(
    text: &mut Text<'_, K>,
    offsets: &mut [u64],
    before: u32,
    body: &[u8],
)
    requires sound { IsSound K.state text.old }
    requires number { before < 2 ^ 32 - 1 }
    requires room { before < length offsets.old }
    ensures adds { Adds K.state text.old text.new offsets.old offsets.new before (body.now ∷ []) }
{
    begin_object(text, offsets, before);
    text.put(body);
    end_object(text);
}

// Puts what comes before the body of an object after `before` others, and notes where it begins.
pub(crate) fn begin_object<K: Sink>(text: &mut Text<'_, K>, offsets: &mut [u64], before: u32)
    requires sound { IsSound K.state text.old }
    requires number { before < 2 ^ 32 - 1 }
    requires room { before < length offsets.old }
    ensures puts { Puts K.state text.old text.new (object_start before) }
    ensures noted { take (before + 1) offsets.new ≡ take before offsets.old ++ count_of text.old ∷ [] }
    ensures size { length offsets.new ≡ length offsets.old }
{
    note(offsets, before, text.count());
    text.put_number(before + 1);
    text.put(b" 0 obj\n");
}

// Notes where the object after `before` others begins.
fn note(offsets: &mut [u64], before: u32, at: u64)
    requires { before < length offsets.old }
    ensures noted { take (before + 1) offsets.new ≡ take before offsets.old ++ at ∷ [] }
    ensures size { length offsets.new ≡ length offsets.old }
{
    offsets[before as usize] = at;
}

// Puts what comes after the body of an object.
#[inline(always)]
pub(crate) fn end_object<K: Sink>(text: &mut Text<'_, K>)
    requires sound { IsSound K.state text.old }
    ensures puts { Puts K.state text.old text.new object_end }
{
    text.put(b"\nendobj\n");
}

// Puts a reference to the object of this number.
pub(crate) fn put_reference<K: Sink>(text: &mut Text<'_, K>, number: u32)
    requires sound { IsSound K.state text.old }
    ensures puts { Puts K.state text.old text.new (reference_text number) }
{
    text.put(b" ");
    text.put_number(number);
    text.put(b" 0 R");
}
