//! What commands ask of an image: HP RTL, "Raster Graphics".
ghost use Rattle.std.specs.Prelude.{◌≡◌, ◌≤◌, nat_abs, IfSome};
ghost use Rattle.raster_requests.specs.Images.{above_0, resolution_of, width_of, height_of, coding_of, transparency_of};
ghost use Rattle.raster_requests.specs.Ranges.{IsSettingInRange};
ghost use Rattle.raster_requests.specs.Images.{corner_of, row_compression, rows_moved};

use image_rows::Compression;

/// The greatest width of an image in dots. A greater one counts as this: the limit is our choice.
pub const GREATEST_WIDTH: u32 = 1_048_576;

/// A setting of a whole image. Once an image has data, its settings are passed over, also those out of range.
#[derive(Clone, Copy, PartialEq, Eq, Debug)]
pub enum ImageSetting {
    /// `*t` R (Set Graphics Resolution): dots per inch, 10 to 2400.
    Resolution(u32),
    /// `*r` S (Source Raster Width): dots, 1 to `GREATEST_WIDTH`; none for 0 and less.
    Width(Option<u32>),
    /// `*r` T (Source Raster Height): rows, from 1 on; none for 0 and less.
    Height(Option<u32>),
    /// `*r` U (Simple Color): the planes of a row.
    Coding(Coding),
    /// `*v` W (Configure Image Data): the command's data say how the image is coded.
    Configuration,
    /// `*v` N (Source Transparency Mode).
    Transparency(Transparency),
    /// A value of `*t` R, `*r` U or `*v` N that is out of range.
    OutOfRange,
}

/// The planes of a row, one bit a dot each, in their order.
#[derive(Clone, Copy, PartialEq, Eq, Debug)]
pub enum Coding {
    /// 1 or -1: one plane, black.
    Black,
    /// 3
    RedGreenBlue,
    /// -3
    CyanMagentaYellow,
    /// -4
    BlackCyanMagentaYellow,
}

/// Whether white dots of an image hide what is below them.
#[derive(Clone, Copy, PartialEq, Eq, Debug)]
pub enum Transparency {
    /// 0: they do not.
    Transparent,
    /// 1: they do.
    Opaque,
}

/// Where the corner of an image is.
#[derive(Clone, Copy, PartialEq, Eq, Debug)]
pub enum Corner {
    /// 0 or 2: on the row of RTL's place, at the begin of rows.
    AtMargin,
    /// 1 or 3: at RTL's place.
    AtPlace,
}

/// A part of a colour.
#[derive(Clone, Copy, PartialEq, Eq, Debug)]
pub enum Primary {
    /// `*v` A
    First,
    /// `*v` B
    Second,
    /// `*v` C
    Third,
}

/// A number that must be above 0. None if it is not.
fn above_0(number: i64) -> Option<u32>
    requires { nat_abs number ≤ 2147483648 }
    ensures value { result ≡ above_0 number }
    ensures range { IfSome result (λ n. (1 ≤ n) × (n ≤ 2147483648)) }
{
    if number > 0 {
        Some(number as u32)
    } else {
        None
    }
}

/// What `*t` R sets.
pub fn resolution_of(number: i64) -> ImageSetting
    ensures value { result ≡ resolution_of number }
    ensures range { IsSettingInRange result }
{
    if 10 <= number && number <= 2400 {
        ImageSetting::Resolution(number as u32)
    } else {
        ImageSetting::OutOfRange
    }
}

/// What `*r` S sets.
pub fn width_of(number: i64) -> ImageSetting
    requires { nat_abs number ≤ 2147483648 }
    ensures value { result ≡ width_of number }
    ensures range { IsSettingInRange result }
{
    match above_0(number) {
        None => ImageSetting::Width(None),
        Some(dots) => ImageSetting::Width(Some(dots.min(GREATEST_WIDTH))),
    }
}

/// What `*r` T sets.
pub fn height_of(number: i64) -> ImageSetting
    requires { nat_abs number ≤ 2147483648 }
    ensures value { result ≡ height_of number }
    ensures range { IsSettingInRange result }
{
    ImageSetting::Height(above_0(number))
}

/// What `*r` U sets.
pub fn coding_of(number: i64) -> ImageSetting
    ensures { result ≡ coding_of number }
{
    match number {
        1 | -1 => ImageSetting::Coding(Coding::Black),
        3 => ImageSetting::Coding(Coding::RedGreenBlue),
        -3 => ImageSetting::Coding(Coding::CyanMagentaYellow),
        -4 => ImageSetting::Coding(Coding::BlackCyanMagentaYellow),
        _ => ImageSetting::OutOfRange,
    }
}

/// What `*v` N sets.
pub fn transparency_of(number: i64) -> ImageSetting
    ensures { result ≡ transparency_of number }
{
    match number {
        0 => ImageSetting::Transparency(Transparency::Transparent),
        1 => ImageSetting::Transparency(Transparency::Opaque),
        _ => ImageSetting::OutOfRange,
    }
}

/// Where an image is begun by `*r` A. None if the number is out of range.
pub fn corner_of(number: i64) -> Option<Corner>
    ensures { result ≡ corner_of number }
{
    match number {
        0 | 2 => Some(Corner::AtMargin),
        1 | 3 => Some(Corner::AtPlace),
        _ => None,
    }
}

/// The compression of `*b` M. None if there is none of this number.
pub fn row_compression(number: i64) -> Option<Compression>
    requires { nat_abs number ≤ 2147483648 }
    ensures { result ≡ row_compression number }
{
    if number < 0 {
        None
    } else {
        Compression::from_number(number as u32)
    }
}

/// How many rows `*b` Y moves.
pub fn rows_moved(number: i64) -> u32
    requires { nat_abs number ≤ 2147483648 }
    ensures value { result ≡ rows_moved number }
    ensures range { result ≤ 2147483648 }
{
    if number < 0 { 0 } else { number as u32 }
}
