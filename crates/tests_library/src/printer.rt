//! The resolutions of pictures in PCL.
use crate::pages::{CROSSING, eight_by_eight, job_at};
use crate::runs::{Asked, drawn, told};
use crate::streams::{Reader, Writer};
use plotraster::{Fault, Form};
use std::test::Fail;

#[test]
fn resolutions_of_pcl(rt: HostRuntime) -> Result<(), Fail> {
    let mut taken = String::new(rt.alloc());
    for dots in 10..=1200 {
        match drawn(rt.alloc(), &job_at(Form::Pcl, dots)?, CROSSING) {
            Ok(_) => write!(taken, "{dots} ")?,
            Err(Fault::Resolution) => {}
            Err(_) => return Err("another fault".into()),
        }
    }
    assert_eq!(rt; taken.as_str(), "75 100 150 200 300 600 ");
    Ok(())
}

// The resolution comes before all else: the source, which fails, is not asked.
#[test]
fn the_resolution_is_judged_first(rt: HostRuntime) -> Result<(), Fail> {
    let mut wrong = eight_by_eight(Form::Pcl)?;
    wrong.band = 0;
    let reader = Reader {
        semicolons: 10,
        room: 0,
        ..Reader::new(b"")
    };
    let found = told(
        rt.alloc(),
        Asked::Picture,
        &wrong,
        reader,
        Writer::new(rt.alloc()),
    )?;
    assert_eq!(rt;
        found.as_str(),
        "Err(Resolution)\n\
0 reads of at most 0, 10 left, 0 failures, 0 ends\n\
0 writes, 0 bytes, 0 failures\n"
    );
    Ok(())
}
