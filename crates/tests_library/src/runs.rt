//! The library's calls as tests make them. Their contracts promise nothing: what a test knows of an answer
//! it must find by looking, so no proof of a test reads what the calls are proved to do.
use crate::streams::{Reader, Writer};
use plotraster::{
    Done, Exact, Fault, Gauge, Job, OverRead, OverWrite, Reading, Sink, Source, convert,
    picture_bytes, picture_bytes_as, report,
};
use std::alloc::{AllocError, Global};
use std::process::Abort;
use std::test::Fail;

/// What is asked of a plot.
#[derive(Clone, Copy, Drop)]
pub enum Asked {
    /// The picture of a job, with the exact gauge.
    Picture,
    /// The report on the job's page.
    Report,
}

/// What a run answers, and what it leaves of its source and its sink.
#[derive(Drop)]
pub struct Outcome<'a> {
    pub answer: Result<Done, Fault>,
    pub reader: Reader<'a>,
    pub read_failures: u64,
    pub ends: u64,
    pub writer: Writer,
    pub write_failures: u64,
}

/// A run of `convert` or `report` over a reader and a writer.
pub fn run<'a>(
    alloc: Global,
    asked: Asked,
    job: &Job,
    reader: Reader<'a>,
    writer: Writer,
) -> Outcome<'a> {
    let mut source = OverRead::new(reader);
    let mut sink = OverWrite::new(writer);
    let answer = match asked {
        Asked::Picture => convert(alloc, job, &mut Exact::new(), &mut source, &mut sink),
        Asked::Report => report(alloc, &job.page, &mut source, &mut sink),
    };
    let (read_failures, ends, write_failures) = (source.failures(), source.ends(), sink.failures());
    Outcome {
        answer,
        reader: source.into_inner(),
        read_failures,
        ends,
        writer: sink.into_inner(),
        write_failures,
    }
}

/// What a run answers, and what its reader and its writer have counted.
pub fn told(
    alloc: Global,
    asked: Asked,
    job: &Job,
    reader: Reader<'_>,
    writer: Writer,
) -> Result<String, AllocError> {
    let outcome = run(alloc, asked, job, reader, writer);
    let answer = outcome.answer;
    let mut told = format!(in alloc; "{answer:?}\n")?;
    tell_reads(&mut told, &outcome)?;
    tell_writes(&mut told, &outcome)?;
    Ok(told)
}

fn tell_reads(told: &mut String, outcome: &Outcome<'_>) -> Result<(), AllocError> {
    let reader = &outcome.reader;
    let (calls, asked) = (reader.calls, reader.most_asked);
    let left = reader.rest.len().saturating_add(reader.semicolons);
    let (failures, ends) = (outcome.read_failures, outcome.ends);
    write!(
        told,
        "{calls} reads of at most {asked}, {left} left, {failures} failures, {ends} ends\n"
    )
}

fn tell_writes(told: &mut String, outcome: &Outcome<'_>) -> Result<(), AllocError> {
    let writer = &outcome.writer;
    let (calls, bytes) = (writer.calls, writer.bytes.len());
    let failures = outcome.write_failures;
    write!(told, "{calls} writes, {bytes} bytes, {failures} failures\n")
}

/// What `convert` writes with a gauge.
pub fn drawn_by<G: Gauge>(
    alloc: Global,
    job: &Job,
    gauge: &mut G,
    plot: &[u8],
) -> Result<Vec<u8>, Fault> {
    let mut sink = OverWrite::new(Vec::new(alloc));
    convert(alloc, job, gauge, &mut OverRead::new(plot), &mut sink)?;
    Ok(sink.into_inner())
}

/// What `picture_bytes_as` answers.
pub fn drawn_as(alloc: Global, reading: Reading, job: &Job, plot: &[u8]) -> Result<Vec<u8>, Fault> {
    picture_bytes_as(alloc, reading, job, plot)
}

/// What `picture_bytes` answers.
pub fn drawn(alloc: Global, job: &Job, plot: &[u8]) -> Result<Vec<u8>, Fault> {
    picture_bytes(alloc, job, plot)
}

/// Fails unless the picture of a plot is this.
pub fn has_picture(
    rt: &impl Abort,
    alloc: Global,
    job: &Job,
    plot: &[u8],
    wanted: &[u8],
) -> Result<(), Fail> {
    let picture = drawn(alloc, job, plot)?;
    let size = picture.len();
    assert!(rt;
        picture.as_slice() == wanted,
        "another picture, of {size} bytes"
    );
    Ok(())
}
