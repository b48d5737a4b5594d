//! The lines that edges cross, one after another.
use crate::climb::{Climb, Crossing};
use crate::edge::Edge;
use crate::lines::{Lines, Rule};
use crate::ruling::Ruling;
use std::alloc::{AllocError, Global};

// No line below this one is crossed: -2^25.
const LOWEST_LINE: i32 = -33_554_432;

// The lines that are left.
#[derive(Drop)]
pub struct Sweep<'a> {
    pub alloc: Global,
    pub edges: &'a [Edge],
    pub ruling: Ruling,
    pub rule: Rule,
    // The edges that cross lines, sorted by their first line.
    pub climbs: Vec<Climb>,
    // The next line.
    pub line: i32,
    // How many of the climbs have begun, and those of them that have not ended.
    pub begun: usize,
    pub active: Vec<Climb>,
}

impl<'a> Sweep<'a> {
    ghost use Rattle.std.specs.Prelude.{◌≡◌, ◌≤◌, ◌^◌, ◌∷◌, [], map, IfOk, OnOk, true, false};
    ghost use Rattle.polygons.specs.Fills.{filled};
    ghost use Rattle.polygons.specs.Climbs.{bare};
    ghost use Rattle.polygons.specs.Sweeps.{IsSweep, IsReady, IsCut, IsSame, crossed, these, left};

    pub fn new(
        alloc: Global,
        edges: &'a [Edge],
        lines: Lines,
        rule: Rule,
    ) -> Result<Sweep<'a>, AllocError>
        requires least { 4096 ≤ lines.apart }
        requires most { lines.apart ≤ 2 ^ 40 }
        ensures sound { IfOk result IsSweep }
        ensures all { IfOk result (λ sweep. left sweep ≡ filled lines rule edges.now) }
    {
        let ruling = Ruling::new(lines);
        let mut climbs = climbs(alloc, edges, &ruling)?;
        climbs.sort_unstable_by_key(|climb| climb.first);
        Ok(Sweep {
            alloc,
            edges,
            ruling,
            rule,
            climbs,
            line: LOWEST_LINE,
            begun: 0,
            active: Vec::new(alloc),
        })
    }

    // Goes to the next line that an edge crosses, if there is one.
    pub fn skip(&mut self) -> bool
        requires { IsSweep self.old }
        ensures sound { IsSweep self.new }
        ensures kept { IsSame self.old self.new }
        ensures same { left self.new ≡ left self.old }
        ensures some { result ≡ true → IsCut self.new }
        ensures none { result ≡ false → left self.old ≡ [] }
    {
        if self.active.is_empty() {
            match self.climbs.get(self.begun) {
                None => return false,
                Some(climb) => self.line = climb.first,
            }
        }
        true
    }

    // Adds the climbs that begin at this line to the active ones.
    pub fn begin(&mut self) -> Result<(), AllocError>
        requires { IsCut self.old }
        ensures sound { IsSweep self.new }
        ensures same { left self.new ≡ left self.old }
        ensures these { these self.new ≡ these self.old }
        ensures ready { OnOk result (IsReady self.new) }
    {
        'climbs: while self.begun < self.climbs.len() {
            let climb = self.climbs[self.begun];
            if climb.first > self.line {
                break;
            }
            self.active.push(climb)?;
            self.begun += 1;
        }
        Ok(())
    }

    // The crossings of this line, in their order along it.
    pub fn crossings(&self) -> Result<Vec<Crossing>, AllocError>
        requires { IsReady self.now }
        ensures { IfOk result (λ found. map bare found.items ≡ crossed self.now) }
    {
        let mut crossings = Vec::with_capacity(self.alloc, self.active.len())?;
        for climb in &self.active {
            let edge = &self.edges[climb.number];
            crossings.push(self.ruling.crossing(self.line, edge, climb.number))?;
        }
        crossings.sort_unstable_by_key(|crossing| (crossing.rank, crossing.number));
        Ok(crossings)
    }

    // Goes past this line.
    pub fn finish(&mut self)
        requires { IsReady self.old }
        ensures sound { IsSweep self.new }
        ensures passed { left self.old ≡ these self.old ∷ left self.new }
    {
        self.line += 1;
        let line = self.line;
        self.active.retain(|climb| line < climb.end);
    }
}

ghost use Rattle.std.specs.Prelude.{◌≡◌, IfOk, length};
ghost use Rattle.std.specs.List.{All};
ghost use Rattle.polygons.specs.Climbs.{climbs_of, IsClimb};

// The climbs of all edges that cross a line, in the order of the edges.
fn climbs(alloc: Global, edges: &[Edge], ruling: &Ruling) -> Result<Vec<Climb>, AllocError>
    ensures value { IfOk result (λ climbs. climbs.items ≡ climbs_of ruling.now.lines 0 edges.now) }
    ensures sound { IfOk result (λ climbs. All (IsClimb (length edges.now)) climbs.items) }
{
    let mut climbs = Vec::new(alloc);
    for (number, edge) in edges.iter().enumerate() {
        if let Some(climb) = ruling.climb(edge, number) {
            climbs.push(climb)?;
        }
    }
    Ok(climbs)
}
