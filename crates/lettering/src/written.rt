//! The strokes of a label, letter by letter.
ghost use Rattle.std.specs.Prelude.{◌≡◌, ◌<◌, ◌≤◌, ◌++◌, ◌^◌, [], length, nat_abs, true, false, IfSome, None};
ghost use Rattle.std.specs.Option.{option_to_list};

use crate::cell::Cell;
use crate::checked::Lettering;
use crate::sections::section_letters;
use character_sets::{Sign, Signs};
use directions::Turn;
use exact::Spot;

// A letter of which strokes may be left: its lower left corner, how it is turned if its points are computed in 64
// bits, and its next stroke.
#[derive(Clone, Copy, Drop)]
pub struct Letter {
    pub code_point: u32,
    pub corner: Spot,
    pub near: Option<Turn>,
    pub stroke: usize,
}

// What is left of a label.
#[derive(Drop)]
pub struct Written<'a> {
    pub lettering: &'a Lettering,
    pub letter: Option<Letter>,
    // The signs after the letter.
    pub rest: Signs<'a>,
    // The cell of the first of them, and how many letters its section has.
    pub cell: Cell,
    pub letters: i64,
}

impl Lettering {
    ghost use Rattle.lettering.specs.Columns.{section_letters};
    ghost use Rattle.lettering.specs.Labels.{strokes_from};
    ghost use Rattle.lettering.specs.declared.cell.Cell.{Cell};

    // How many letters the first section of a label has, or 1 if its strokes are the same whatever it has: they
    // are if the label is right of its start.
    fn first_letters(&self, signs: Signs<'_>) -> i64
        requires { length signs ≤ 2 ^ 26 }
        ensures same { (cell : Cell) → strokes_from self.now.style result cell signs.entry
            ≡ strokes_from self.now.style (section_letters signs.entry) cell signs.entry }
        ensures most { nat_abs result ≤ 2 ^ 29 }
    {
        if self.origin_column() == 0 {
            1
        } else {
            section_letters(signs)
        }
    }
}

impl<'a> Written<'a> {
    ghost use Rattle.lettering.specs.Bounds.{IsStrokeWithin};
    ghost use Rattle.lettering.specs.Labels.{styled_label_strokes, letters_after, sign_strokes};
    ghost use Rattle.lettering.specs.Left.{IsLetter, IsWritten, letter_left, written_left};

    // A label from its start on.
    pub fn new(lettering: &'a Lettering, signs: Signs<'a>) -> Written<'a>
        requires { length signs ≤ 2 ^ 26 }
        ensures sound { IsWritten result }
        ensures all { written_left result ≡ styled_label_strokes lettering.now.style signs.entry }
    {
        let letters = lettering.first_letters(signs.again());
        Written {
            lettering,
            letter: None,
            rest: signs,
            cell: Cell::FIRST,
            letters,
        }
    }

    // The next stroke.
    #[inline(always)]
    pub fn next(&mut self) -> Option<(Spot, Spot)>
        requires { IsWritten self.old }
        ensures sound { IsWritten self.new }
        ensures taken { written_left self.old ≡ option_to_list result ++ written_left self.new }
        ensures none { result ≡ None → written_left self.new ≡ [] }
        ensures within { IfSome result IsStrokeWithin }
    {
        'letters: loop {
            if let Some(stroke) = self.next_of_letter() {
                return Some(stroke);
            }
            if !self.pass() {
                return None;
            }
        }
    }

    // The next stroke of the letter.
    #[inline(always)]
    fn next_of_letter(&mut self) -> Option<(Spot, Spot)>
        requires { IsWritten self.old }
        ensures sound { IsWritten self.new }
        ensures taken { written_left self.old ≡ option_to_list result ++ written_left self.new }
        ensures none { result ≡ None → letter_left self.new.lettering.now.style self.new.letter ≡ [] }
        ensures within { IfSome result IsStrokeWithin }
        ensures rest { self.new.rest ≡ self.old.rest }
    {
        let Some(letter) = &mut self.letter else {
            return None;
        };
        let stroke = self.lettering.stroke(
            letter.corner,
            letter.code_point,
            letter.stroke,
            letter.near,
        )?;
        letter.stroke += 1;
        Some(stroke)
    }

    // Goes on past the next sign, when all strokes of the letter are taken. Whether there is one.
    fn pass(&mut self) -> bool
        requires sound { IsWritten self.old }
        requires taken { letter_left self.old.lettering.now.style self.old.letter ≡ [] }
        ensures sound { IsWritten self.new }
        ensures same { written_left self.old ≡ written_left self.new }
        ensures shorter { result ≡ true → length self.new.rest < length self.old.rest }
        ensures end { result ≡ false → written_left self.new ≡ [] }
    {
        let Some(sign) = self.rest.next_sign() else {
            return false;
        };
        self.letter = self.letter_of(sign);
        self.letters = self.letters_after(sign);
        self.cell = self.cell.after(sign);
        true
    }

    // The letter of a sign in this cell, if it is a printed character.
    fn letter_of(&self, sign: Sign) -> Option<Letter>
        requires column_in { nat_abs self.now.cell.column ≤ 2 ^ 29 }
        requires line_in { self.now.cell.line ≤ 2 ^ 26 }
        requires letters_in { nat_abs self.now.letters ≤ 2 ^ 29 }
        ensures value { letter_left self.now.lettering.now.style result
            ≡ sign_strokes self.now.lettering.now.style self.now.letters self.now.cell sign }
        ensures sound { IfSome result (IsLetter self.now.lettering.now.style) }
    {
        match sign {
            Sign::Printed(code_point) => {
                let corner = self.lettering.corner(self.cell, self.letters);
                Some(Letter {
                    code_point,
                    corner,
                    near: self.lettering.near_turn(corner),
                    stroke: 0,
                })
            }
            _ => None,
        }
    }

    // How many letters the section after a sign has.
    fn letters_after(&self, sign: Sign) -> i64
        requires rest_in { length self.now.rest ≤ 2 ^ 26 }
        requires letters_in { nat_abs self.now.letters ≤ 2 ^ 29 }
        ensures value { result ≡ letters_after self.now.letters sign self.now.rest }
        ensures most { nat_abs result ≤ 2 ^ 29 }
    {
        match sign {
            Sign::CarriageReturn => section_letters(self.rest.again()),
            _ => self.letters,
        }
    }
}
