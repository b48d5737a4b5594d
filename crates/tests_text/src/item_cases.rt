// Cases of plots as one text. A helper writes the cases again with the answers instead of those that are wanted, and
// fails unless both texts are equal.
use crate::texts::has_text;
use hpgl_text::{Body, Item, Items, Profile, lex};
use std::alloc::{AllocError, Global};
use std::process::Abort;
use std::test::Fail;

// What is asked of plots.
#[derive(Clone, Copy, Drop)]
pub enum Asked {
    // The items of the program, a line each.
    Items,
    // What the items have in a profile, a line each.
    Bodies(Profile),
    // How many of the items in a profile are skipped, and how many have no effect.
    PassedOver(Profile),
}

// Fails unless there are so many cases, and each has the answer that it says. A case is a comment, if it has one, a
// plot in a line, the lines of the answer, and an empty line.
pub fn has_answers(
    rt: &impl Abort,
    alloc: Global,
    asked: Asked,
    cases: &str,
    count: usize,
) -> Result<(), Fail> {
    let (answered, found) = answered(alloc, asked, cases)?;
    has_text(rt, answered.as_str(), cases);
    if found != count {
        return Err("not so many cases".into());
    }
    Ok(())
}

// Fails unless this is the answer. The plot may have bytes that no text of cases can have.
pub fn has_answer(
    rt: &impl Abort,
    alloc: Global,
    asked: Asked,
    plot: &[u8],
    wanted: &str,
) -> Result<(), Fail> {
    let answer = answer_of(alloc, asked, plot)?;
    has_text(rt, answer.as_str(), wanted);
    Ok(())
}

// The cases with the answers, and how many they are.
fn answered(alloc: Global, asked: Asked, cases: &str) -> Result<(String, usize), Fail> {
    let mut lines = String::new(alloc);
    let mut count: usize = 0;
    let mut first = true;
    for line in cases.lines() {
        if line.is_empty() {
            lines.push_str("\n")?;
            first = true;
        } else if first {
            lines.push_str(line)?;
            lines.push_str("\n")?;
            if !line.starts_with("// ") {
                lines.push_str(answer_of(alloc, asked, line.as_bytes())?.as_str())?;
                count = count.saturating_add(1);
                first = false;
            }
        }
    }
    Ok((lines, count))
}

fn answer_of(alloc: Global, asked: Asked, plot: &[u8]) -> Result<String, Fail> {
    match asked {
        Asked::Items => items_of(alloc, plot),
        Asked::Bodies(profile) => bodies_of(alloc, profile, plot),
        Asked::PassedOver(profile) => passed_over(alloc, profile, plot),
    }
}

fn items_of(alloc: Global, plot: &[u8]) -> Result<String, Fail> {
    let program = lex(alloc, plot)?;
    let mut lines = String::new(alloc);
    for item in program.items() {
        lines.push_str(item_told(alloc, item)?.as_str())?;
    }
    Ok(lines)
}

// The printed form of an item.
fn item_told(alloc: Global, item: &Item<'_>) -> Result<String, AllocError> {
    format!(in alloc; "{item:?}\n")
}

fn bodies_of(alloc: Global, profile: Profile, plot: &[u8]) -> Result<String, Fail> {
    let mut lines = String::new(alloc);
    for item in Items::by_profile(profile, plot) {
        lines.push_str(body_told(alloc, &item.body)?.as_str())?;
    }
    Ok(lines)
}

// The printed form of what an item has.
fn body_told(alloc: Global, body: &Body<'_>) -> Result<String, AllocError> {
    format!(in alloc; "{body:?}\n")
}

fn passed_over(alloc: Global, profile: Profile, plot: &[u8]) -> Result<String, Fail> {
    let mut skipped: usize = 0;
    let mut known: usize = 0;
    let bodies = bodies_of(alloc, profile, plot)?;
    for body in bodies.lines() {
        if body == "Skipped" {
            skipped = skipped.saturating_add(1);
        }
        if body == "Known" {
            known = known.saturating_add(1);
        }
    }
    Ok(format!(in alloc; "{skipped} skipped, {known} without effect\n")?)
}
