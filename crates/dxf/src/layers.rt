//! Layers: one for each pen of a sheet that is drawn.
ghost use Rattle.stroke_runs.specs.Drawn.{is_drawn};
ghost use Rattle.std.specs.Prelude.{if◌then◌else◌, ◌==◌, Some, ◌≡◌, ◌≤◌, ◌<◌, length, [], ◌++◌};
ghost use Rattle.pieces.specs.Texts.{IsSound, Puts};
ghost use Rattle.plot_page.specs.declared.stroke.TheConstants.{MOST_STROKES};
ghost use Rattle.std.specs.Prelude.{codes};
ghost use Rattle.dxf.specs.Layers.{colour_group, colour_of, layer_entry, layer_groups, layer_name, layers_of, layers_text, pen_entry, sheet_name, with_layer, with_stroke};
ghost use Rattle.dxf.specs.Groups.{count_group, group};

use crate::chains::is_same_colour;
use crate::colours::colour_number;
use crate::groups::{put_count, put_group};
use devices::Sink;
use pieces::Text;
use plot_page::{Colour, PenSet, Stroke};
use stroke_runs::is_drawn;

/// The layers of a sheet.
#[derive(Clone, Copy)]
pub(crate) struct Layers {
    /// The number of the sheet, if the document has several.
    pub(crate) sheet: Option<u32>,
    /// The colour of the layer of each pen that has one.
    pub(crate) colours: [Option<Colour>; 256],
}

impl Layers {
    /// The layers of the strokes of a sheet.
    pub(crate) fn of(sheet: Option<u32>, pens: &PenSet, strokes: &[Stroke]) -> Layers
        ensures { result ≡ layers_of sheet pens.now strokes.now }
    {
        let mut layers = Layers {
            sheet,
            colours: [None; 256],
        };
        for stroke in strokes {
            layers.add_drawn(pens, stroke);
        }
        layers
    }

    // Adds a layer for the pen of a stroke, if it is drawn, unless there is one.
    fn add_drawn(&mut self, pens: &PenSet, stroke: &Stroke)
        ensures sheet { self.new.sheet ≡ self.old.sheet }
        ensures colours { self.new.colours ≡ (if is_drawn pens.now stroke.now
            then with_stroke self.old.colours stroke.now else self.old.colours) }
    {
        if is_drawn(pens, stroke) {
            self.add(stroke.pen, stroke.colour);
        }
    }

    // Adds a layer of this colour for a pen, unless there is one.
    fn add(&mut self, pen: u8, colour: Colour)
        ensures sheet { self.new.sheet ≡ self.old.sheet }
        ensures colours { self.new.colours ≡ with_layer self.old.colours pen colour }
    {
        match self.colour_of(pen) {
            Some(_) => {}
            None => self.colours[usize::from(pen)] = Some(colour),
        }
    }

    // The colour of the layer of a pen, if it has one.
    fn colour_of(&self, pen: u8) -> Option<Colour>
        ensures { result ≡ colour_of self.now.colours pen }
    {
        self.colours[usize::from(pen)]
    }
}

// Puts the entries of all pens into the table of layers.
pub(crate) fn put_layers<K: Sink>(text: &mut Text<'_, K>, layers: &Layers)
    requires sound { IsSound K.state text.old }
    ensures puts { Puts K.state text.old text.new (layers_text layers.now) }
{
    let mut pen: u8 = 0;
    for place in 0..255u32 {
        pen += 1;
        put_pen(text, layers, pen);
    }
}

// Puts the entry of a pen, if it has a layer.
fn put_pen<K: Sink>(text: &mut Text<'_, K>, layers: &Layers, pen: u8)
    requires sound { IsSound K.state text.old }
    ensures puts { Puts K.state text.old text.new (pen_entry layers.now pen) }
{
    let Some(colour) = layers.colour_of(pen) else {
        return;
    };
    put_group(text, 0, b"LAYER");
    put_layer(text, layers, 2, pen);
    put_rest(text, colour_number(colour));
}

// Puts the entry of layer 0, which is always there.
pub(crate) fn put_layer_zero<K: Sink>(text: &mut Text<'_, K>)
    requires sound { IsSound K.state text.old }
    ensures puts { Puts K.state text.old text.new (layer_entry (codes "0") 7) }
{
    put_group(text, 0, b"LAYER");
    put_group(text, 2, b"0");
    put_rest(text, 7);
}

// Puts what an entry of the table of layers has after its name.
fn put_rest<K: Sink>(text: &mut Text<'_, K>, number: u32)
    requires sound { IsSound K.state text.old }
    ensures puts { Puts K.state text.old text.new
        (count_group 70 0 ++ count_group 62 number ++ group 6 (codes "CONTINUOUS")) }
{
    put_count(text, 70, 0);
    put_count(text, 62, number);
    put_group(text, 6, b"CONTINUOUS");
}

// Puts a group with the name of the layer of a pen.
pub(crate) fn put_layer<K: Sink>(text: &mut Text<'_, K>, layers: &Layers, code: u32, pen: u8)
    requires sound { IsSound K.state text.old }
    ensures puts { Puts K.state text.old text.new (group code (layer_name layers.now pen)) }
{
    text.put_number(code);
    text.put(b"\n");
    put_name(text, layers, pen);
    text.put(b"\n");
}

// Puts the name of the layer of a pen.
fn put_name<K: Sink>(text: &mut Text<'_, K>, layers: &Layers, pen: u8)
    requires sound { IsSound K.state text.old }
    ensures puts { Puts K.state text.old text.new (layer_name layers.now pen) }
{
    put_sheet(text, layers.sheet);
    text.put(b"PEN_");
    text.put_number(u32::from(pen));
}

// Puts what the name of a layer of a sheet begins with.
fn put_sheet<K: Sink>(text: &mut Text<'_, K>, sheet: Option<u32>)
    requires sound { IsSound K.state text.old }
    ensures puts { Puts K.state text.old text.new (sheet_name sheet) }
{
    let Some(number) = sheet else {
        return;
    };
    text.put(b"S");
    text.put_number(number);
    text.put(b"_");
}

// Puts the layer of an entity, and its colour if this is another one.
pub(crate) fn put_layer_groups<K: Sink>(
    text: &mut Text<'_, K>,
    layers: &Layers,
    pen: u8,
    colour: Colour,
)
    requires sound { IsSound K.state text.old }
    ensures puts { Puts K.state text.old text.new (layer_groups layers.now pen colour) }
{
    put_layer(text, layers, 8, pen);
    put_colour(text, colour, layers.colour_of(pen));
}

// Puts a colour, if the layer has another one.
fn put_colour<K: Sink>(text: &mut Text<'_, K>, own: Colour, of_layer: Option<Colour>)
    requires sound { IsSound K.state text.old }
    ensures puts { Puts K.state text.old text.new (colour_group own of_layer) }
{
    match of_layer {
        Some(colour) => put_other(text, own, colour),
        None => put_count(text, 62, colour_number(own)),
    }
}

// Puts a colour, if it has another number than that of the layer. That need not be looked up for the layer's own colour.
fn put_other<K: Sink>(text: &mut Text<'_, K>, own: Colour, of_layer: Colour)
    requires sound { IsSound K.state text.old }
    ensures puts { Puts K.state text.old text.new (colour_group own (Some of_layer)) }
{
    if is_same_colour(own, of_layer) {
        return;
    }
    put_number_of(text, colour_number(own), colour_number(of_layer));
}

// Puts the number of a colour, if that of the layer is another one.
fn put_number_of<K: Sink>(text: &mut Text<'_, K>, own: u32, of_layer: u32)
    requires sound { IsSound K.state text.old }
    ensures puts { Puts K.state text.old text.new (if own == of_layer then [] else count_group 62 own) }
{
    if own != of_layer {
        put_count(text, 62, own);
    }
}
