//! Layers: an optional content group for each pen.
ghost use Rattle.std.specs.Prelude.{◌+◌, ◌-◌, ◌^◌, ◌<◌, ◌≤◌, ◌++◌, [], ◌∷◌, length, codes, decimal};
ghost use Rattle.pieces.specs.Texts.{IsSound, Puts};
ghost use Rattle.pdf.specs.Documents.{layer_object, layer_objects, layers_text, properties_text};
ghost use Rattle.pdf.specs.Objects.{reference_text};
ghost use Rattle.pdf.specs.Writings.{Adds};

use crate::objects::{begin_object, end_object, put_reference};
use crate::pens::PENS;
use devices::Sink;
use pieces::Text;

// Puts references to the layers of pens, from this number on.
pub(crate) fn put_references<K: Sink>(text: &mut Text<'_, K>, number: u32, pens: &[u8])
    requires sound { IsSound K.state text.old }
    requires few { length pens.now ≤ PENS }
    requires number { number + PENS < 2 ^ 32 }
    ensures puts { Puts K.state text.old text.new (layers_text number pens.now) }
{
    for index in 0..pens.len() {
        put_reference(text, number + index as u32);
    }
}

// Puts the same, each after the name of its layer.
pub(crate) fn put_properties<K: Sink>(text: &mut Text<'_, K>, number: u32, pens: &[u8])
    requires sound { IsSound K.state text.old }
    requires few { length pens.now ≤ PENS }
    requires number { number + PENS < 2 ^ 32 }
    ensures puts { Puts K.state text.old text.new (properties_text number pens.now) }
{
    for index in 0..pens.len() {
        put_property(text, pens[index], number + index as u32);
    }
}

// Puts a reference to the layer of a pen after its name.
fn put_property<K: Sink>(text: &mut Text<'_, K>, pen: u8, number: u32)
    requires sound { IsSound K.state text.old }
    ensures puts { Puts K.state text.old text.new (codes "/P" ++ decimal pen ++ reference_text number) }
{
    text.put(b"/P");
    text.put_number(pen);
    put_reference(text, number);
}

// Puts the layers of pens after `before` objects.
pub(crate) fn put_layers<K: Sink>(
    text: &mut Text<'_, K>,
    offsets: &mut [u64],
    before: u32,
    pens: &[u8],
)
    requires sound { IsSound K.state text.old }
    requires few { length pens.now ≤ PENS }
    requires number { before + PENS < 2 ^ 32 - 1 }
    requires room { before + length pens.now ≤ length offsets.old }
    ensures adds { Adds K.state text.old text.new offsets.old offsets.new before (layer_objects pens.now) }
{
    for index in 0..pens.len() {
        put_layer(text, offsets, before + index as u32, pens[index]);
    }
}

// Puts the layer of a pen after `before` objects.
fn put_layer<K: Sink>(text: &mut Text<'_, K>, offsets: &mut [u64], before: u32, pen: u8)
    requires sound { IsSound K.state text.old }
    requires number { before < 2 ^ 32 - 1 }
    requires room { before < length offsets.old }
    ensures adds { Adds K.state text.old text.new offsets.old offsets.new before (layer_object pen ∷ []) }
{
    begin_object(text, offsets, before);
    text.put(b"<</Type/OCG/Name(Pen ");
    text.put_number(pen);
    text.put(b")>>");
    end_object(text);
}
