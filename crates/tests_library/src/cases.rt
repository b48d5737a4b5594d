//! Cases of plots as one text: a plot, a line that begins with `=`, and the rest of the answer; an empty line separates
//! cases.
use crate::pages::eight_by_eight;
use crate::runs::{Asked, run};
use crate::streams::{Reader, Writer};
use plotraster::Form;
use std::alloc::Global;
use std::process::Abort;
use std::test::Fail;

/// Fails unless there are so many cases, and each plot has the answer that its case says: of a picture, in marks, what
/// the conversion answers and how many bytes it writes, and of a report what it answers, how often it meets the plot's
/// end, and the report.
pub fn has_answers(
    rt: &impl Abort,
    alloc: Global,
    asked: Asked,
    cases: &str,
    count: usize,
) -> Result<(), Fail> {
    let mut found: usize = 0;
    for case in cases.split("\n\n") {
        let (plot, wanted) = case.split_once("\n= ").ok_or("a case with no answer")?;
        let answer = answer_of(alloc, asked, plot.as_bytes())?;
        assert_eq!(rt; answer.as_str(), wanted, "{plot}");
        found = found.saturating_add(1);
    }
    assert_eq!(rt; found, count);
    Ok(())
}

fn answer_of(alloc: Global, asked: Asked, plot: &[u8]) -> Result<String, Fail> {
    let job = eight_by_eight(Form::Marks)?;
    let outcome = run(alloc, asked, &job, Reader::new(plot), Writer::new(alloc));
    let (answer, bytes) = (outcome.answer, outcome.writer.bytes.as_slice());
    match asked {
        Asked::Picture => {
            let count = bytes.len();
            Ok(format!(in alloc; "{answer:?}, {count} bytes")?)
        }
        Asked::Report => {
            let ends = outcome.ends;
            let report = text_of(bytes)?.trim_end();
            Ok(format!(in alloc; "{answer:?}, {ends} ends, {report}")?)
        }
    }
}

/// These bytes as a text.
pub fn text_of(bytes: &[u8]) -> Result<&str, Fail> {
    match std::str::from_utf8(bytes) {
        Ok(text) => Ok(text),
        Err(_) => Err("no text".into()),
    }
}
