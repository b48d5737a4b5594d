//! Requests: what each command asks.
ghost use Rattle.std.specs.Prelude.{◌≡◌, ◌≤◌, nat_abs};
ghost use Rattle.escapes.specs.Views.{said};
ghost use Rattle.raster_requests.specs.Requests.{asked_alone, asked_of_language, asked_of_decipoints, asked_of_page};
ghost use Rattle.raster_requests.specs.Requests.{unit_of, asked_of_unit, asked_of_pcl, asked_of_rows, asked_of_place};
ghost use Rattle.raster_requests.specs.Requests.{asked_of_image, asked_of_resolution, asked_of_colours};
ghost use Rattle.raster_requests.specs.Requests.{asked_of_raster, request_of};
ghost use Rattle.raster_requests.specs.Ranges.{IsInRange};

use crate::image::{
    Corner, ImageSetting, Primary, coding_of, corner_of, height_of, resolution_of, row_compression,
    rows_moved, transparency_of, width_of,
};
use crate::place::{Axis, Language, PlaceChange, PlaceUnit, Places, place_change, places_of};
use crate::value::whole_value;
use escapes::Command;
use image_rows::Compression;

/// What a command asks. The commands are those of HP RTL and PCL 5; the rest of PCL is passed over.
#[derive(Clone, Copy, PartialEq, Eq, Debug)]
pub enum Request {
    /// A setting of the whole image.
    Set(ImageSetting),
    /// `*r` A (Start Raster Graphics): an image begins, in HP RTL. None if the number is out of range.
    Start(Option<Corner>),
    /// `*r` B (End Raster Graphics): the image ends.
    End,
    /// `*r` C (End Raster Graphics): the image ends, and rows are unencoded again.
    EndAndReset,
    /// `*b` M (Set Compression Method): how rows are compressed from now on. With none they have no dots.
    Compress(Option<Compression>),
    /// `*b` Y (Y Offset): rows without dots.
    MoveRows(u32),
    /// `*b` V (Transfer Raster Data by Plane): the command's data are the next plane of a row.
    Plane,
    /// `*b` W (Transfer Raster Data by Row): the command's data are the next plane of a row, which ends with it.
    LastPlane,
    /// `*v` A, B and C (Color Component): a part of the next palette entry.
    PalettePart(Primary, i64),
    /// `*v` I (Assign Color Index): this entry gets its parts.
    PaletteEntry(i64),
    /// `*p` X and Y, `&a` H and V (Move CAP): RTL's place changes.
    Place(PlaceChange),
    /// `&u` D (Unit of Measure): units to an inch, 10 to 9600.
    Unit(u32),
    /// `%` A and B: this language is read from now on.
    Enter(Language, Places),
    /// ESC `E` and `%-12345X`: all of RTL's state is as at the start.
    Reset,
    /// `&l0H` (Eject Page): the page ends.
    EndPage,
    /// Nothing: the command is known, and has no effect on a plot.
    Nothing,
    /// Nothing: the value of `&u` D is out of range.
    Bad,
    /// Nothing: the command is not known.
    Skipped,
}

impl Request {
    /// What a command asks. Its value is rounded to a whole number, the upper one of two, but for changes of RTL's place.
    pub fn of(command: &Command<'_>) -> Request
        ensures value { result ≡ request_of (said command.now) }
        ensures ranges { IsInRange result }
    {
        match command.group {
            None => asked_alone(command.letter),
            Some(b'%') => asked_of_language(command.letter, whole_value(command)),
            Some(b'&') => asked_of_pcl(command),
            Some(b'(' | b')') => Request::Nothing,
            Some(b'*') => asked_of_raster(command),
            Some(_) => Request::Skipped,
        }
    }
}

// A byte that is an escape of its own.
fn asked_alone(letter: u8) -> Request
    ensures { result ≡ asked_alone letter }
{
    match letter {
        b'E' => Request::Reset,
        _ => Request::Nothing,
    }
}

// ESC %.
fn asked_of_language(letter: u8, number: i64) -> Request
    ensures { result ≡ asked_of_language letter number }
{
    match letter {
        b'A' => Request::Enter(Language::Rtl, places_of(number)),
        b'B' => Request::Enter(Language::Hpgl2, places_of(number)),
        b'X' if number == -12345 => Request::Reset,
        _ => Request::Nothing,
    }
}

// &.
fn asked_of_pcl(command: &Command<'_>) -> Request
    ensures value { result ≡ asked_of_pcl command.now.parameter (said command.now) }
    ensures ranges { IsInRange result }
{
    match command.parameter {
        Some(b'a') => asked_of_decipoints(command),
        Some(b'l') => asked_of_page(command.letter, whole_value(command)),
        Some(b'u') => asked_of_unit(command.letter, whole_value(command)),
        _ => Request::Nothing,
    }
}

// &a.
fn asked_of_decipoints(command: &Command<'_>) -> Request
    ensures value { result ≡ asked_of_decipoints command.now.letter (said command.now) }
    ensures ranges { IsInRange result }
{
    match command.letter {
        b'H' => Request::Place(place_change(Axis::AlongRow, PlaceUnit::Decipoint, command)),
        b'V' => Request::Place(place_change(Axis::AcrossRows, PlaceUnit::Decipoint, command)),
        _ => Request::Nothing,
    }
}

// &l.
fn asked_of_page(letter: u8, number: i64) -> Request
    ensures { result ≡ asked_of_page letter number }
{
    match letter {
        b'H' if number == 0 => Request::EndPage,
        _ => Request::Nothing,
    }
}

// &u.
fn asked_of_unit(letter: u8, number: i64) -> Request
    ensures value { result ≡ asked_of_unit letter number }
    ensures ranges { IsInRange result }
{
    match letter {
        b'D' => unit_of(number),
        _ => Request::Nothing,
    }
}

// Units to an inch.
fn unit_of(number: i64) -> Request
    ensures value { result ≡ unit_of number }
    ensures ranges { IsInRange result }
{
    if 10 <= number && number <= 9600 {
        Request::Unit(number as u32)
    } else {
        Request::Bad
    }
}

// *.
fn asked_of_raster(command: &Command<'_>) -> Request
    ensures value { result ≡ asked_of_raster command.now.parameter (said command.now) }
    ensures ranges { IsInRange result }
{
    match command.parameter {
        Some(b'b') => asked_of_rows(command.letter, whole_value(command)),
        Some(b'p') => asked_of_place(command),
        Some(b'r') => asked_of_image(command.letter, whole_value(command)),
        Some(b't') => asked_of_resolution(command.letter, whole_value(command)),
        Some(b'v') => asked_of_colours(command.letter, whole_value(command)),
        Some(b'l' | b'o') => Request::Nothing,
        _ => Request::Skipped,
    }
}

// *b.
fn asked_of_rows(letter: u8, number: i64) -> Request
    requires { nat_abs number ≤ 2147483648 }
    ensures value { result ≡ asked_of_rows letter number }
    ensures ranges { IsInRange result }
{
    match letter {
        b'M' => Request::Compress(row_compression(number)),
        b'V' => Request::Plane,
        b'W' => Request::LastPlane,
        b'Y' => Request::MoveRows(rows_moved(number)),
        _ => Request::Skipped,
    }
}

// *p.
fn asked_of_place(command: &Command<'_>) -> Request
    ensures value { result ≡ asked_of_place command.now.letter (said command.now) }
    ensures ranges { IsInRange result }
{
    match command.letter {
        b'X' => Request::Place(place_change(Axis::AlongRow, PlaceUnit::Unit, command)),
        b'Y' => Request::Place(place_change(Axis::AcrossRows, PlaceUnit::Unit, command)),
        _ => Request::Skipped,
    }
}

// *r.
fn asked_of_image(letter: u8, number: i64) -> Request
    requires { nat_abs number ≤ 2147483648 }
    ensures value { result ≡ asked_of_image letter number }
    ensures ranges { IsInRange result }
{
    match letter {
        b'A' => Request::Start(corner_of(number)),
        b'B' => Request::End,
        b'C' => Request::EndAndReset,
        b'S' => Request::Set(width_of(number)),
        b'T' => Request::Set(height_of(number)),
        b'U' => Request::Set(coding_of(number)),
        b'F' | b'L' | b'Q' => Request::Nothing,
        _ => Request::Skipped,
    }
}

// *t.
fn asked_of_resolution(letter: u8, number: i64) -> Request
    ensures value { result ≡ asked_of_resolution letter number }
    ensures ranges { IsInRange result }
{
    match letter {
        b'R' => Request::Set(resolution_of(number)),
        _ => Request::Nothing,
    }
}

// *v.
fn asked_of_colours(letter: u8, number: i64) -> Request
    requires { nat_abs number ≤ 2147483648 }
    ensures value { result ≡ asked_of_colours letter number }
    ensures ranges { IsInRange result }
{
    match letter {
        b'A' => Request::PalettePart(Primary::First, number),
        b'B' => Request::PalettePart(Primary::Second, number),
        b'C' => Request::PalettePart(Primary::Third, number),
        b'I' => Request::PaletteEntry(number),
        b'N' => Request::Set(transparency_of(number)),
        b'W' => Request::Set(ImageSetting::Configuration),
        _ => Request::Skipped,
    }
}
