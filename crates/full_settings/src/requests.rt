//! What a further instruction asks for by its numbers: the one table that says it.
ghost use Rattle.std.specs.Prelude.{◌≡◌, ◌≤◌, take, false, IfSome, if◌then◌else◌};
ghost use Rattle.full_settings.specs.FurtherRequests as requests;
ghost use Rattle.full_settings.specs.FurtherRequests.{IsFurtherRequest, has_many, right_or_wrong};
ghost use Rattle.full_settings.specs.PolygonParameters.{without_polygon_chord};

use crate::character_moves::{CharacterMove, character_move};
use crate::character_parameters::{font_choice, set_choice};
use crate::character_setting::CharacterSetting;
use crate::colour_parameters::colour_ranges;
use crate::colour_range::ColourRanges;
use crate::curve_parameters::arc_points;
use crate::fill_parameters::fill_type_setting;
use crate::fill_setting::FillSetting;
use crate::ink_parameters::{screen_setting, transparency_setting};
use crate::ink_setting::InkSetting;
use crate::letter_parameters::{
    origin_setting, path_setting, relative_direction_setting, relative_size_setting, slant_setting,
    space_setting,
};
use crate::letter_setting::LetterSetting;
use crate::line_parameters::{line_type_setting, user_line_setting};
use crate::line_setting::LineSetting;
use crate::page_points::{RelativePoints, relative_points};
use crate::points::ArcPoints;
use crate::polygon_parameters::{anchor, choice, fill_corner, polygon_step, wedge};
use crate::polygon_setting::{Anchor, PolygonStep, Wedge};
use crate::tick_length::TickLength;
use crate::tick_parameters::tick_setting;
use crate::width_parameters::{thickness_setting, width_unit_setting};
use crate::width_setting::WidthSetting;
use character_sets::Selection;
use hpgl_text::{Further, Number, Numbers};
use plot_settings::Corner;

/// What a further instruction asks for.
#[derive(Drop)]
pub enum FurtherRequest {
    /// LT and UL: a line type.
    Line(LineSetting),
    /// WU and PT: widths of pens.
    Width(WidthSetting),
    /// SR, SL, DR, DV, LO and ES: how letters are written.
    Letter(LetterSetting),
    /// CS, CA, SD, AD, SS and SA: sets of characters and fonts.
    Characters(CharacterSetting),
    /// TL: the length of ticks.
    Ticks(TickLength),
    /// IR: P1 and P2 in percent of the page.
    Points(RelativePoints),
    /// CR: the ranges of colours.
    Colours(ColourRanges),
    /// CP: a move by columns and lines.
    Move(CharacterMove),
    /// XT, which is upright, and YT, which is level: a tick.
    Tick(bool),
    /// AT, and RT, whose points are relative to the pen: an arc.
    Arc(bool, ArcPoints),
    /// BZ, and BR, whose points are relative to the pen: Bezier curves by all numbers.
    Curves(bool),
    /// PM: polygon mode begins or ends, or a polygon is closed.
    Polygon(PolygonStep),
    /// EP: the edges of the polygons in the buffer.
    EdgePolygon,
    /// FP: their inside, by winding or by odd counts.
    FillPolygon(bool),
    /// FT: how polygons are filled.
    Fill(FillSetting),
    /// AC: the point that a line of hatching goes through.
    Anchor(Anchor),
    /// RA, and RR, whose corner is relative to the pen: a filled rectangle.
    Rectangle(bool, Corner),
    /// EW: the edge of a wedge.
    EdgeWedge(Wedge),
    /// WG: a filled wedge.
    FillWedge(Wedge),
    /// TR and SV: how strokes show.
    Ink(InkSetting),
    /// CT: whether chords have the usual angle, whatever angle is named.
    Chords(bool),
    /// UC: a character by moves, by all numbers.
    UserCharacter,
    /// PB: the text that is kept is written.
    Print,
    /// PG and the like: the end of a sheet.
    EndSheet,
    /// BP: all that is set is as at the start.
    Begin,
    /// Nothing, since the numbers are wrong.
    Wrong,
}

/// What a further instruction asks for by its numbers. Numbers after the last that it has are ignored.
pub fn further_request(further: Further, numbers: &Numbers<'_>) -> FurtherRequest
    ensures value { result ≡ requests.further_request further numbers.now }
    ensures sound { IsFurtherRequest result }
{
    let (list, count) = numbers.leading();
    request_by_first(further, numbers, &list[..count])
}

/// The same after CT 1, by which chords of arcs and wedges are not read.
pub fn request_without_chord(further: Further, numbers: &Numbers<'_>) -> FurtherRequest
    ensures value { result ≡ requests.further_request further (without_polygon_chord further numbers.now) }
    ensures sound { IsFurtherRequest result }
{
    match further {
        Further::ArcAbsoluteThreePoint => request_by_few(further, numbers, 4),
        Further::ArcRelativeThreePoint => request_by_few(further, numbers, 4),
        Further::EdgeWedge => request_by_few(further, numbers, 3),
        Further::FillWedge => request_by_few(further, numbers, 3),
        _ => further_request(further, numbers),
    }
}

// What an instruction other than UL, SD and AD asks for by so many of its first numbers.
fn request_by_few(further: Further, numbers: &Numbers<'_>, most: usize) -> FurtherRequest
    requires few { most ≤ 7 }
    requires other { has_many further ≡ false }
    ensures value { result ≡ requests.further_request further (take most numbers.now) }
    ensures sound { IsFurtherRequest result }
{
    let (list, count) = numbers.leading();
    request_by_first(further, numbers, &list[..count.min(most)])
}

// What an instruction asks for by its first numbers, or, if it is UL, SD or AD, by all.
fn request_by_first(further: Further, numbers: &Numbers<'_>, first: &[Number]) -> FurtherRequest
    ensures value { result ≡ requests.further_request further (if has_many further then numbers.now else first.now) }
    ensures sound { IsFurtherRequest result }
{
    match right_request(further, numbers, first) {
        Some(request) => request,
        None => FurtherRequest::Wrong,
    }
}

// The same, or `None` if the numbers are wrong.
fn right_request(
    further: Further,
    numbers: &Numbers<'_>,
    first: &[Number],
) -> Option<FurtherRequest>
    ensures value { right_or_wrong result
        ≡ requests.further_request further (if has_many further then numbers.now else first.now) }
    ensures sound { IfSome result IsFurtherRequest }
{
    match further {
        Further::LineType => Some(FurtherRequest::Line(line_type_setting(first)?)),
        Further::UserLineType => Some(FurtherRequest::Line(user_line_setting(numbers)?)),
        Further::WidthUnit => Some(FurtherRequest::Width(width_unit_setting(first)?)),
        Further::PenThickness => Some(FurtherRequest::Width(thickness_setting(first)?)),
        Further::RelativeSize => Some(FurtherRequest::Letter(relative_size_setting(first)?)),
        Further::Slant => Some(FurtherRequest::Letter(slant_setting(first)?)),
        Further::RelativeDirection => Some(FurtherRequest::Letter(relative_direction_setting(
            first,
        )?)),
        Further::TextPath => Some(FurtherRequest::Letter(path_setting(first)?)),
        Further::LabelOrigin => Some(FurtherRequest::Letter(origin_setting(first)?)),
        Further::ExtraSpace => Some(FurtherRequest::Letter(space_setting(first)?)),
        Further::CharacterPlot => Some(FurtherRequest::Move(character_move(first)?)),
        Further::TickLength => Some(FurtherRequest::Ticks(tick_setting(first)?)),
        Further::XTick => Some(FurtherRequest::Tick(true)),
        Further::YTick => Some(FurtherRequest::Tick(false)),
        Further::PolygonMode => Some(FurtherRequest::Polygon(polygon_step(first)?)),
        Further::EdgePolygon => Some(FurtherRequest::EdgePolygon),
        Further::FillPolygon => Some(FurtherRequest::FillPolygon(choice(first)?)),
        Further::FillType => Some(FurtherRequest::Fill(fill_type_setting(first)?)),
        Further::AnchorCorner => Some(FurtherRequest::Anchor(anchor(first)?)),
        Further::FillAbsolute => Some(FurtherRequest::Rectangle(false, fill_corner(first)?)),
        Further::FillRelative => Some(FurtherRequest::Rectangle(true, fill_corner(first)?)),
        Further::EdgeWedge => Some(FurtherRequest::EdgeWedge(wedge(first)?)),
        Further::FillWedge => Some(FurtherRequest::FillWedge(wedge(first)?)),
        Further::ArcAbsoluteThreePoint => Some(FurtherRequest::Arc(false, arc_points(first)?)),
        Further::ArcRelativeThreePoint => Some(FurtherRequest::Arc(true, arc_points(first)?)),
        Further::BezierAbsolute => Some(FurtherRequest::Curves(false)),
        Further::BezierRelative => Some(FurtherRequest::Curves(true)),
        Further::ChordTolerance => Some(FurtherRequest::Chords(choice(first)?)),
        Further::RelativePoints => Some(FurtherRequest::Points(relative_points(first)?)),
        Further::ColourRange => Some(FurtherRequest::Colours(colour_ranges(first)?)),
        Further::StandardSet => Some(FurtherRequest::Characters(set_choice(
            Selection::Standard,
            first,
        ))),
        Further::AlternateSet => Some(FurtherRequest::Characters(set_choice(
            Selection::Alternate,
            first,
        ))),
        Further::StandardFont => Some(FurtherRequest::Characters(font_choice(
            Selection::Standard,
            numbers,
        )?)),
        Further::AlternateFont => Some(FurtherRequest::Characters(font_choice(
            Selection::Alternate,
            numbers,
        )?)),
        Further::Transparency => Some(FurtherRequest::Ink(transparency_setting(first)?)),
        Further::ScreenedVectors => Some(FurtherRequest::Ink(screen_setting(first)?)),
        Further::UserCharacter => Some(FurtherRequest::UserCharacter),
        Further::SelectStandard => Some(FurtherRequest::Characters(CharacterSetting::Select(
            Selection::Standard,
        ))),
        Further::SelectAlternate => Some(FurtherRequest::Characters(CharacterSetting::Select(
            Selection::Alternate,
        ))),
        Further::EndSheet => Some(FurtherRequest::EndSheet),
        Further::BeginPlot => Some(FurtherRequest::Begin),
        Further::PrintBuffer => Some(FurtherRequest::Print),
    }
}
