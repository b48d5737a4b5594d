//! How items are read: some may not be there in polygon mode or out of it, and after CT 1 no chord is read.
ghost use Rattle.std.specs.Prelude.{◌≡◌, IfSome, min, if◌then◌else◌};
ghost use Rattle.plot_settings.specs.Bounds.{IsArc, IsCircle};
ghost use Rattle.plot_settings.specs.Parameters.{arced, circled};
ghost use Rattle.hpgl_text.specs.declared.instruction.Instruction.TheVariants as of;
ghost use Rattle.full_settings.specs.FurtherRequests.{IsFurtherRequest};
ghost use Rattle.hpgl_text.specs.Seen.{body_shape};
ghost use Rattle.full_notes.specs.Contexts as contexts;
ghost use Rattle.full_notes.specs.Contexts.{params_read};

use crate::context::Context;
use full_settings::{FurtherRequest, PolygonStep, further_request, request_without_chord};
use hpgl_text::{Body, Further, Instruction, Numbers};
use plot_settings::{Arc, Circle, arc_from, circle_from};

/// Whether an item may not be there in polygon mode.
#[inline(always)]
pub fn is_misplaced(body: &Body<'_>, in_polygon: bool) -> bool
    ensures { result ≡ contexts.is_misplaced in_polygon (body_shape body.now) }
{
    in_polygon && is_bad_in_polygons(body)
}

fn is_bad_in_polygons(body: &Body<'_>) -> bool
    ensures { result ≡ contexts.is_bad_in_polygons (body_shape body.now) }
{
    match body {
        Body::Params(instruction, _) => is_edge(*instruction),
        Body::Further(further, _) => is_bad_further(*further),
        Body::Label(_) => true,
        _ => false,
    }
}

fn is_edge(instruction: Instruction) -> bool
    ensures { result ≡ contexts.is_edge instruction }
{
    matches!(
        instruction,
        Instruction::EdgeAbsolute | Instruction::EdgeRelative
    )
}

fn is_bad_further(further: Further) -> bool
    ensures { result ≡ contexts.is_bad_further further }
{
    match further {
        Further::PrintBuffer | Further::CharacterPlot | Further::UserCharacter => true,
        Further::XTick | Further::YTick => true,
        Further::EdgePolygon | Further::FillPolygon => true,
        Further::FillAbsolute | Further::FillRelative => true,
        Further::EdgeWedge | Further::FillWedge => true,
        _ => false,
    }
}

/// What a further instruction asks for. PM 1 and PM 2 are wrong out of polygon mode, and after CT 1 no chord is
/// read.
pub fn request_read(further: Further, numbers: &Numbers<'_>, context: &Context) -> FurtherRequest
    ensures value { result ≡ contexts.request_in context.now further numbers.now }
    ensures sound { IsFurtherRequest result }
{
    let request = if context.usual_chords {
        request_without_chord(further, numbers)
    } else {
        further_request(further, numbers)
    };
    asked_in(context.in_polygon, request)
}

fn asked_in(in_polygon: bool, request: FurtherRequest) -> FurtherRequest
    requires { IsFurtherRequest request }
    ensures value { result ≡ contexts.asked_in in_polygon request }
    ensures sound { IsFurtherRequest result }
{
    match request {
        FurtherRequest::Polygon(PolygonStep::Close | PolygonStep::End) if !in_polygon => {
            FurtherRequest::Wrong
        }
        request => request,
    }
}

/// What CI asks for.
pub fn circle_read(numbers: &Numbers<'_>, usual_chords: bool) -> Option<Circle>
    ensures value { result ≡ circled (params_read usual_chords of.Circle numbers.now) }
    ensures sound { IfSome result (λ c. IsCircle c) }
{
    let (list, count) = numbers.leading();
    circle_from(&list[..read_count(count, 1, usual_chords)])
}

/// What AA and AR ask for.
pub fn arc_read(numbers: &Numbers<'_>, usual_chords: bool) -> Option<Arc>
    ensures value { result ≡ arced (params_read usual_chords of.ArcAbsolute numbers.now) }
    ensures sound { IfSome result (λ a. IsArc a) }
{
    let (list, count) = numbers.leading();
    arc_from(&list[..read_count(count, 3, usual_chords)])
}

// How many numbers are read, of which so many are no chord.
fn read_count(count: usize, before_chord: usize, usual_chords: bool) -> usize
    ensures { result ≡ (if usual_chords then min count before_chord else count) }
{
    if usual_chords {
        count.min(before_chord)
    } else {
        count
    }
}
