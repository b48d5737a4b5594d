//! Noting what is skipped or wrong in the profile full.
ghost use Rattle.std.specs.Prelude.{◌≡◌};
ghost use Rattle.plot_settings.specs.Requests.{request_meaning};
ghost use Rattle.full_notes.specs.Contexts.{params_read};
ghost use Rattle.full_notes.specs.Notes as notes;
ghost use Rattle.full_notes.specs.Notes.{bad_if, bad_without, body_noted, request_noted, width_noted, params_noted};

use crate::context::Context;
use crate::reading::{arc_read, circle_read, is_misplaced, request_read};
use full_settings::{
    FillSetting, FurtherRequest, InkSetting, are_curves, are_user_moves, colour_in, percent_setting,
};
use hpgl_plot::NoteKind;
use hpgl_text::{Body, Instruction, Item, Numbers};
use plot_settings::{Request, request_of};

/// What is noted on an item at its first byte, by the context before it, which becomes the one after it. Of an escape that
/// is told, so nothing is noted here.
pub fn take_note(item: &Item<'_>, context: &mut Context) -> Option<NoteKind>
    ensures noted { result ≡ body_noted context.old item.now.body }
    ensures after { context.new ≡ notes.context_after context.old item.now.body }
{
    if is_misplaced(&item.body, context.in_polygon) {
        return Some(NoteKind::Bad);
    }
    match &item.body {
        Body::Further(further, numbers) => {
            let request = request_read(*further, numbers, context);
            context.pass_request(&request);
            noted_request(&request, numbers)
        }
        Body::Params(instruction, numbers) => {
            let noted = noted_params(*instruction, numbers, context);
            context.pass_instruction(*instruction);
            noted
        }
        _ => hpgl_plot::noted_kind(item),
    }
}

/// What is noted on a further instruction that asks for this.
pub fn noted_request(request: &FurtherRequest, numbers: &Numbers<'_>) -> Option<NoteKind>
    ensures { result ≡ request_noted request.now numbers.now }
{
    match request {
        FurtherRequest::Wrong => Some(NoteKind::Bad),
        FurtherRequest::Fill(FillSetting::Pattern) => Some(NoteKind::Skipped),
        FurtherRequest::Ink(InkSetting::OtherScreen) => Some(NoteKind::Skipped),
        FurtherRequest::Characters(setting) if setting.names_unknown_set() => {
            Some(NoteKind::Skipped)
        }
        FurtherRequest::Curves(_) if !are_curves(numbers) => Some(NoteKind::Bad),
        FurtherRequest::UserCharacter if !are_user_moves(numbers) => Some(NoteKind::Bad),
        _ => None,
    }
}

// What is noted on an instruction of core: PW in percent and PC in ranges are judged by rules of their own,
// chords of CI, AA and AR may not be read, and DI may be along no axis.
fn noted_params(
    instruction: Instruction,
    numbers: &Numbers<'_>,
    context: &Context,
) -> Option<NoteKind>
    ensures { result ≡ params_noted context.now instruction
        (params_read context.now.usual_chords instruction numbers.now) }
{
    match instruction {
        Instruction::PenWidth => noted_width(numbers, context.in_percent),
        Instruction::PenColour => bad_without(colour_in(&context.ranges, numbers)),
        Instruction::Circle => bad_without(circle_read(numbers, context.usual_chords)),
        Instruction::ArcAbsolute | Instruction::ArcRelative => {
            bad_without(arc_read(numbers, context.usual_chords))
        }
        _ => noted_asked(&request_of(instruction, numbers), numbers),
    }
}

// What is noted on a PW.
fn noted_width(numbers: &Numbers<'_>, in_percent: bool) -> Option<NoteKind>
    ensures { result ≡ width_noted in_percent numbers.now }
{
    if in_percent {
        let (list, count) = numbers.leading();
        bad_without(percent_setting(&list[..count]))
    } else {
        noted_asked(&request_of(Instruction::PenWidth, numbers), numbers)
    }
}

/// What is noted on an instruction of core with these numbers that asks for this.
#[inline(always)]
pub fn noted_asked(request: &Request, numbers: &Numbers<'_>) -> Option<NoteKind>
    ensures { result ≡ bad_if (request_meaning request.now numbers.now).is_wrong }
{
    if request.is_wrong(numbers) {
        Some(NoteKind::Bad)
    } else {
        None
    }
}

/// Numbers that ask for nothing are wrong.
pub fn bad_without<S: Drop>(setting: Option<S>) -> Option<NoteKind>
    ensures { result ≡ bad_without setting }
{
    match setting {
        Some(_) => None,
        None => Some(NoteKind::Bad),
    }
}
