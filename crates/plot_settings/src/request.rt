//! What an instruction asks for by its numbers: the one table that says it.
ghost use Rattle.std.specs.Prelude.{◌≡◌, List, ℤ, All, IfSome, MatchOption, true, false};
ghost use Rattle.hpgl_text.specs.Bounds.{IsNumber};
ghost use Rattle.plot_settings.specs.Requests.{request_meaning, move_steps, IsRequest};
ghost use Rattle.plot_settings.specs.Bounds.{IsSetting, IsCircle, IsArc};
ghost use Rattle.plot_settings.specs.Meanings.{meaning, sets, plots, edges, asks, DrawCircle, DrawArc};
ghost use Rattle.plot_settings.specs.Pairs.{plots_pairs};

use crate::arc_parameters::{arc_from, circle_from};
use crate::figure::{Arc, Circle, Corner};
use crate::lettering::{direction_setting, size_setting};
use crate::parameters::{
    colour_setting, pen_setting, points_setting, rotation_setting, scaling_setting, width_setting,
    window_setting,
};
use crate::setting::Setting;
use hpgl_text::{Instruction, Moves, Number, Numbers};

/// What an instruction asks for. Coordinates are in millionths of the current unit.
#[derive(Clone, Copy, Debug)]
pub enum Request {
    /// A setting.
    Set(Setting),
    /// A move to each pair of the numbers.
    Move(Moves),
    /// EA and ER: the edge of a rectangle, by whether the corner opposite the pen is relative to it.
    Edge(bool, Corner),
    /// CI: a circle about the pen.
    Circle(Circle),
    /// AA and AR: an arc, by whether its centre is relative to the pen.
    Arc(bool, Arc),
    /// Nothing, since the numbers are invalid.
    Wrong,
}

impl Request {
    /// Whether the numbers of the instruction that asks for this are invalid: out of their range, too
    /// few, or, if it makes a move to each pair of them, one without its pair. Numbers after the last
    /// that an instruction has are ignored.
    #[inline(always)]
    pub fn is_wrong(&self, numbers: &Numbers<'_>) -> bool
        ensures { result ≡ (request_meaning self.now numbers.now).is_wrong }
    {
        match self {
            Request::Wrong => true,
            Request::Move(_) => numbers.len() % 2 == 1,
            Request::Set(_) | Request::Edge(..) | Request::Circle(_) | Request::Arc(..) => false,
        }
    }
}

/// What an instruction asks for by its numbers. Numbers after the last that it has are ignored. Of the
/// instructions with moves the numbers themselves are the coordinates, and one without its pair is
/// invalid, but changes nothing for the pairs before it.
#[inline(always)]
pub fn request_of(instruction: Instruction, numbers: &Numbers<'_>) -> Request
    ensures meaning { request_meaning result numbers.now ≡ meaning instruction numbers.now }
    ensures sound { IsRequest result }
{
    match moves_of(instruction) {
        Some(moves) => Request::Move(moves),
        None => {
            let (list, count) = numbers.leading();
            request_by_first(instruction, &list[..count])
        }
    }
}

// The moves of PU, PD, PA and PR.
fn moves_of(instruction: Instruction) -> Option<Moves>
    ensures { MatchOption result (plots_pairs instruction ≡ false)
        (λ kind. (ns : List ℤ) → plots (move_steps kind ns) ns ≡ meaning instruction ns) }
{
    match instruction {
        Instruction::PenUp => Some(Moves::Up),
        Instruction::PenDown => Some(Moves::Down),
        Instruction::PlotAbsolute => Some(Moves::Absolute),
        Instruction::PlotRelative => Some(Moves::Relative),
        _ => None,
    }
}

// What each other instruction asks for by its first numbers.
#[inline(never)]
fn request_by_first(instruction: Instruction, numbers: &[Number]) -> Request
    requires small { All IsNumber numbers.now }
    requires other { plots_pairs instruction ≡ false }
    ensures meaning { (ns : List ℤ) → request_meaning result ns ≡ meaning instruction numbers.now }
    ensures sound { IsRequest result }
{
    match instruction {
        Instruction::Initialize => Request::Set(Setting::Start),
        Instruction::DefaultValues => Request::Set(Setting::Defaults),
        Instruction::InputPoints => set_by(points_setting(numbers)),
        Instruction::Scale => set_by(scaling_setting(numbers)),
        Instruction::Rotate => set_by(rotation_setting(numbers)),
        Instruction::InputWindow => set_by(window_setting(numbers)),
        Instruction::SelectPen => set_by(pen_setting(numbers)),
        Instruction::PenWidth => set_by(width_setting(numbers)),
        Instruction::PenColour => set_by(colour_setting(numbers)),
        Instruction::EdgeAbsolute => edge_by(false, numbers),
        Instruction::EdgeRelative => edge_by(true, numbers),
        Instruction::Circle => circle_by(circle_from(numbers)),
        Instruction::ArcAbsolute => arc_by(false, arc_from(numbers)),
        Instruction::ArcRelative => arc_by(true, arc_from(numbers)),
        Instruction::CharacterSize => set_by(size_setting(numbers)),
        Instruction::Direction => set_by(direction_setting(numbers)),
        // These have moves.
        Instruction::PenUp | Instruction::PenDown => unreachable!(),
        Instruction::PlotAbsolute | Instruction::PlotRelative => unreachable!(),
    }
}

fn set_by(named: Option<Setting>) -> Request
    requires { IfSome named (λ setting. IsSetting setting) }
    ensures meaning { (ns : List ℤ) → request_meaning result ns ≡ sets named }
    ensures sound { IsRequest result }
{
    match named {
        Some(setting) => Request::Set(setting),
        None => Request::Wrong,
    }
}

fn edge_by(is_relative: bool, numbers: &[Number]) -> Request
    ensures meaning { (ns : List ℤ) → request_meaning result ns ≡ edges is_relative numbers.now }
    ensures sound { IsRequest result }
{
    match numbers {
        [] => Request::Wrong,
        [_] => Request::Wrong,
        [x, y, ..] => {
            let corner = Corner {
                x: x.millionths(),
                y: y.millionths(),
            };
            Request::Edge(is_relative, corner)
        }
    }
}

fn circle_by(named: Option<Circle>) -> Request
    requires { IfSome named (λ circle. IsCircle circle) }
    ensures meaning { (ns : List ℤ) → request_meaning result ns ≡ asks DrawCircle named }
    ensures sound { IsRequest result }
{
    match named {
        Some(circle) => Request::Circle(circle),
        None => Request::Wrong,
    }
}

fn arc_by(is_relative: bool, named: Option<Arc>) -> Request
    requires { IfSome named (λ arc. IsArc arc) }
    ensures meaning { (ns : List ℤ) → request_meaning result ns ≡ asks (DrawArc is_relative) named }
    ensures sound { IsRequest result }
{
    match named {
        Some(arc) => Request::Arc(is_relative, arc),
        None => Request::Wrong,
    }
}
