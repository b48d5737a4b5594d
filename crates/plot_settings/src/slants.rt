//! Directions along no axis.
ghost use Rattle.std.specs.Prelude.{◌≡◌};
ghost use Rattle.plot_settings.specs.Slants as slants;

use crate::lettering::is_slanted;
use hpgl_text::{Instruction, Numbers};

/// Whether the instruction is a DI (Absolute Direction) whose direction is along no axis.
pub fn is_off_axis(instruction: Instruction, numbers: &Numbers<'_>) -> bool
    ensures { result ≡ slants.is_off_axis instruction numbers.now }
{
    match instruction {
        Instruction::Direction => has_slant(numbers),
        _ => false,
    }
}

// Whether the run and the rise of a direction are both other than 0.
fn has_slant(numbers: &Numbers<'_>) -> bool
    ensures { result ≡ slants.is_slanted numbers.now }
{
    let (list, count) = numbers.leading();
    is_slanted(&list[..count])
}
