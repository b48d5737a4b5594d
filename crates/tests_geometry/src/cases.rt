// Cases as one text. A helper writes the cases again with the answers instead of those that are wanted, and fails unless
// both texts are equal.
use crate::characters_set::{choices_of, chosen_after};
use crate::full_settings_set::{colours_of, further_settings_of, points_on_page};
use crate::letters_set::{headings_after, size_after, style_after_told};
use crate::settings::settings_of;
use crate::texts::has_text;
use std::alloc::Global;
use std::process::Abort;
use std::test::Fail;

// What is asked of texts.
#[derive(Clone, Copy, Drop)]
pub enum Asked {
    Settings,
    FurtherSettings,
    Points,
    Colours,
    Choices,
    Chosen,
    Sizes,
    Headings,
    Styles,
}

// Fails unless there are so many cases, and each has the answer that it says. A case is a comment, if it has one, a
// text in a line, the lines of the answer, and an empty line.
pub fn has_answers(
    rt: &impl Abort,
    alloc: Global,
    asked: Asked,
    cases: &str,
    count: usize,
) -> Result<(), Fail> {
    let (answered, found) = answered(alloc, asked, cases)?;
    has_text(rt, answered.as_str(), cases);
    if found != count {
        return Err("not so many cases".into());
    }
    Ok(())
}

// The cases with the answers, and how many they are.
fn answered(alloc: Global, asked: Asked, cases: &str) -> Result<(String, usize), Fail> {
    let mut lines = String::new(alloc);
    let mut count: usize = 0;
    let mut first = true;
    for line in cases.lines() {
        if line.is_empty() {
            lines.push_str("\n")?;
            first = true;
        } else if first {
            lines.push_str(line)?;
            lines.push_str("\n")?;
            if !line.starts_with("// ") {
                lines.push_str(answer_of(alloc, asked, line.as_bytes())?.as_str())?;
                count = count.saturating_add(1);
                first = false;
            }
        }
    }
    Ok((lines, count))
}

fn answer_of(alloc: Global, asked: Asked, text: &[u8]) -> Result<String, Fail> {
    match asked {
        Asked::Settings => settings_of(alloc, text),
        Asked::FurtherSettings => further_settings_of(alloc, text),
        Asked::Points => points_on_page(alloc, text),
        Asked::Colours => colours_of(alloc, text),
        Asked::Choices => choices_of(alloc, text),
        Asked::Chosen => chosen_after(alloc, text),
        Asked::Sizes => size_after(alloc, text),
        Asked::Headings => headings_after(alloc, text),
        Asked::Styles => style_after_told(alloc, text),
    }
}
