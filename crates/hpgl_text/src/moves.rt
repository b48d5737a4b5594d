//! The instructions that move the pen by pairs of coordinates.
ghost use Rattle.std.specs.Prelude.{◌≡◌};
ghost use Rattle.hpgl_text.specs.Shapes.{move_instruction, curve_instruction};

use crate::further::Further;
use crate::instruction::Instruction;

/// Which moves an instruction makes, one to each pair of its coordinates.
#[derive(Clone, Copy, Debug, PartialEq, Eq)]
pub enum Moves {
    /// PU: with the pen up.
    Up,
    /// PD: with the pen down.
    Down,
    /// PA: to absolute coordinates.
    Absolute,
    /// PR: to relative coordinates.
    Relative,
}

impl Moves {
    /// The instruction that makes them.
    pub fn instruction(self) -> Instruction
        ensures { result ≡ move_instruction self }
    {
        match self {
            Moves::Up => Instruction::PenUp,
            Moves::Down => Instruction::PenDown,
            Moves::Absolute => Instruction::PlotAbsolute,
            Moves::Relative => Instruction::PlotRelative,
        }
    }
}

/// The instruction that draws curves by relative or by absolute points.
pub fn curve_instruction(is_relative: bool) -> Further
    ensures { result ≡ curve_instruction is_relative }
{
    if is_relative {
        Further::BezierRelative
    } else {
        Further::BezierAbsolute
    }
}
