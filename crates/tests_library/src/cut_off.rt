//! Plots that end anywhere.
use crate::pages::eight_by_eight;
use crate::runs::{Asked, drawn, run};
use crate::streams::{Reader, Writer};
use plotraster::Form;
use std::alloc::Global;
use std::process::Abort;
use std::test::Fail;

const PLOTS: &str = "\
SP1;PU0,28;PD64,28;SP2;PU28,0;PD28,64;SP1;PU0,12;PD64,12;
SC0,8,0,8;PU0,3.5;PD8,3.5;
SC0,8,0,8,2;PU0,3.5;PD8,3.5;
SC8,0,0,8;SC0,0,0,8;PU0,3.5;PD4,3.5;
SC0,8,0,8,1;PU0,3.5;PD8,3.5;
PU0,28;PE7?c_;
PU0,28;PE7>c?o_;
PU0,28;PE7:c?c_;
PE7<=_w?c_;
PU0,28;LBL\x03
DT$;PU0,28;LBL$
ZZ1,2;CO\"a;b\";PA1
\x1b%-1BIN;SP1;PU0,28;PD64,28;SP0;\x1b%0A\x1bE
";

// Fails unless the plot has a picture of all pixels, and a report that begins as all do on this page.
fn is_read(rt: &impl Abort, alloc: Global, plot: &[u8]) -> Result<(), Fail> {
    let job = eight_by_eight(Form::Pbm)?;
    let length = plot.len();
    assert_eq!(rt; drawn(alloc, &job, plot)?.len(), 15, "after {length}");
    let (reader, writer) = (Reader::new(plot), Writer::new(alloc));
    let outcome = run(alloc, Asked::Report, &job, reader, writer);
    outcome.answer?;
    let begin = b"page 64 64 0 0\nstrokes ";
    let report = outcome.writer.bytes.as_slice();
    assert!(rt; report.starts_with(begin), "after {length}");
    Ok(())
}

// A plot that is cut off after any of its bytes has a picture and a report.
fn is_read_in_part(rt: &impl Abort, alloc: Global, plot: &[u8]) -> Result<(), Fail> {
    for length in 0..=plot.len() {
        is_read(rt, alloc, &plot[..length])?;
    }
    Ok(())
}

#[test]
fn plots_cut_off_anywhere(rt: HostRuntime) -> Result<(), Fail> {
    let mut count: usize = 0;
    for plot in PLOTS.lines() {
        is_read_in_part(&rt, rt.alloc(), plot.as_bytes())?;
        count = count.saturating_add(1);
    }
    assert_eq!(rt; count, 13);
    is_read_in_part(&rt, rt.alloc(), b"PU0,28;PE\x3f\xc1\xbf;")
}
