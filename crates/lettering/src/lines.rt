//! The lines of a label.
ghost use Rattle.std.specs.Prelude.{◌≡◌, ◌+◌, ◌*◌, ◌≤◌, ◌++◌, ◌^◌, ◌+ℤ◌, Option, Some, nat_abs, length, IfOk};
ghost use Rattle.std.specs.Option.{option_to_list};
ghost use Rattle.character_sets.specs.declared.sign.Sign.TheVariants.{Printed};
ghost use Rattle.directions.specs.Bounds.{IsWithin};
ghost use Rattle.labels.specs.Labels.{IsNear, LineShape, place_of};
ghost use Rattle.lettering.specs.Columns.{cell_moved_on};
ghost use Rattle.lettering.specs.Labels.{letters_after};
ghost use Rattle.lettering.specs.Lines.{grid_place, label_lines, letter_start, letter_top, lined, line_begun, start_on_grid};
ghost use Rattle.lettering.specs.Lines.{top_on_grid};

use crate::cell::Cell;
use crate::checked::Lettering;
use crate::sections::section_letters;
use crate::style::Path;
use character_sets::{Sign, Signs};
use exact::Spot;
use labels::{Line, Place};
use std::alloc::{AllocError, Global};

// Where a sign is: its cell, and how many letters its section has.
#[derive(Clone, Copy)]
struct Position {
    cell: Cell,
    letters: i64,
}

// A point of a letter's grid: so many columns to the right and rows up.
#[derive(Clone, Copy)]
struct GridPoint {
    i: u8,
    j: i8,
}

impl Lettering {
    /// The lines of a label of at most 2^26 signs that starts at a place of the page: letters that follow one another, and
    /// where they are. What is no printed character ends a line.
    pub fn lines(
        &self,
        alloc: Global,
        start: Spot,
        signs: Signs<'_>,
    ) -> Result<Vec<Line>, AllocError>
        requires few { length signs ≤ 2 ^ 26 }
        requires near { IsWithin (2 ^ 95) start }
        ensures { IfOk result (λ lines. lines.items ≡ label_lines self.now.style start signs.entry) }
    {
        let mut lines = Vec::new(alloc);
        let mut begun: Option<Line> = None;
        let mut rest = signs;
        let mut at = Position {
            cell: Cell::FIRST,
            letters: section_letters(rest.again()),
        };
        'signs: while let Some(sign) = rest.next_sign() {
            match sign {
                Sign::Printed(code_point) => {
                    begun = Some(self.lined(alloc, start, at, begun, code_point)?);
                }
                _ => {
                    close(&mut lines, begun)?;
                    begun = None;
                }
            }
            at = position_after(at, sign, &rest);
        }
        close(&mut lines, begun)?;
        Ok(lines)
    }

    // The line that has begun, or that begins here, with a letter here.
    fn lined(
        &self,
        alloc: Global,
        start: Spot,
        at: Position,
        begun: Option<Line>,
        code_point: u32,
    ) -> Result<Line, AllocError>
        requires column_in { nat_abs at.cell.column ≤ 2 ^ 29 }
        requires line_in { at.cell.line ≤ 2 ^ 29 }
        requires letters_in { nat_abs at.letters ≤ 2 ^ 29 }
        requires near { IsWithin (2 ^ 95) start }
        ensures { IfOk result (λ line. line ≡ lined self.now.style start at.letters at.cell begun code_point) }
    {
        let mut line = self.line_begun(alloc, start, at, begun);
        let next = Position {
            cell: at.cell.after(Sign::Printed(code_point)),
            letters: at.letters,
        };
        line.push(code_point, self.letter_start(start, next))?;
        Ok(line)
    }

    // The line that has begun, or one that begins here.
    fn line_begun(&self, alloc: Global, start: Spot, at: Position, begun: Option<Line>) -> Line
        requires column_in { nat_abs at.cell.column ≤ 2 ^ 32 }
        requires line_in { at.cell.line ≤ 2 ^ 32 }
        requires letters_in { nat_abs at.letters ≤ 2 ^ 29 }
        requires near { IsWithin (2 ^ 95) start }
        ensures { result ≡ line_begun self.now.style start at.letters at.cell begun }
    {
        match begun {
            Some(line) => line,
            None => Line::new(
                alloc,
                self.letter_start(start, at),
                self.letter_top(start, at),
            ),
        }
    }

    // Where the text of a letter begins.
    fn letter_start(&self, start: Spot, at: Position) -> Place
        requires column_in { nat_abs at.cell.column ≤ 2 ^ 32 }
        requires line_in { at.cell.line ≤ 2 ^ 32 }
        requires letters_in { nat_abs at.letters ≤ 2 ^ 29 }
        requires near { IsWithin (2 ^ 95) start }
        ensures value { result ≡ letter_start self.now.style start at.letters at.cell }
        ensures near { IsNear result }
    {
        self.grid_place(start, at, start_on_grid(self.style.path))
    }

    // The corner above that.
    fn letter_top(&self, start: Spot, at: Position) -> Place
        requires column_in { nat_abs at.cell.column ≤ 2 ^ 32 }
        requires line_in { at.cell.line ≤ 2 ^ 32 }
        requires letters_in { nat_abs at.letters ≤ 2 ^ 29 }
        requires near { IsWithin (2 ^ 95) start }
        ensures value { result ≡ letter_top self.now.style start at.letters at.cell }
        ensures near { IsNear result }
    {
        self.grid_place(start, at, top_on_grid(self.style.path))
    }

    // A point of a letter's grid on the page.
    fn grid_place(&self, start: Spot, at: Position, point: GridPoint) -> Place
        requires column_in { nat_abs at.cell.column ≤ 2 ^ 32 }
        requires line_in { at.cell.line ≤ 2 ^ 32 }
        requires letters_in { nat_abs at.letters ≤ 2 ^ 29 }
        requires near { IsWithin (2 ^ 95) start }
        ensures value { result ≡ grid_place self.now.style start at.letters at.cell point }
        ensures near { IsNear result }
    {
        let offset = self.point(self.corner(at.cell, at.letters), point.i, point.j);
        Place::of(offset_by(start, offset))
    }
}

// The place that lies so far from another one.
fn offset_by(start: Spot, offset: Spot) -> Spot
    requires start { IsWithin (2 ^ 95) start }
    requires offset { IsWithin (2 ^ 95) offset }
    ensures { result ≡ record { x = start.x +ℤ offset.x; y = start.y +ℤ offset.y } }
{
    Spot {
        x: start.x + offset.x,
        y: start.y + offset.y,
    }
}

// Adds the line that has begun, if one has.
fn close(lines: &mut Vec<Line>, begun: Option<Line>) -> Result<(), AllocError>
    ensures { IfOk result (λ _. lines.new.items ≡ lines.old.items ++ option_to_list begun) }
{
    if let Some(line) = begun {
        lines.push(line)?;
    }
    Ok(())
}

// Where the sign after this one is.
fn position_after(at: Position, sign: Sign, rest: &Signs<'_>) -> Position
    requires column_in { nat_abs at.cell.column ≤ 2 ^ 40 }
    requires line_in { at.cell.line ≤ 2 ^ 40 }
    requires letters_in { nat_abs at.letters ≤ 2 ^ 29 }
    requires few { length rest.now ≤ 2 ^ 26 }
    ensures cell { result.cell ≡ cell_moved_on at.cell sign }
    ensures letters { result.letters ≡ letters_after at.letters sign rest.now }
    ensures column_near { nat_abs result.cell.column ≤ nat_abs at.cell.column + 8 }
    ensures line_near { result.cell.line ≤ at.cell.line + 1 }
    ensures letters_near { nat_abs result.letters ≤ 2 ^ 29 }
{
    let letters = match sign {
        Sign::CarriageReturn => section_letters(rest.again()),
        _ => at.letters,
    };
    Position {
        cell: at.cell.after(sign),
        letters,
    }
}

// The corner of a capital, on the letter's grid, from which a text runs along the path.
fn start_on_grid(path: Path) -> GridPoint
    ensures { result ≡ start_on_grid path }
{
    match path {
        Path::Right => GridPoint { i: 0, j: 0 },
        Path::Down => GridPoint { i: 0, j: 6 },
        Path::Left => GridPoint { i: 4, j: 6 },
        Path::Up => GridPoint { i: 4, j: 0 },
    }
}

// The corner above that.
fn top_on_grid(path: Path) -> GridPoint
    ensures { result ≡ top_on_grid path }
{
    match path {
        Path::Right => GridPoint { i: 0, j: 6 },
        Path::Down => GridPoint { i: 4, j: 6 },
        Path::Left => GridPoint { i: 4, j: 0 },
        Path::Up => GridPoint { i: 0, j: 0 },
    }
}
