//! Pictures in bands of any height.
use crate::pages::{CROSSING, job_at};
use crate::runs::{drawn, has_picture};
use plotraster::{Form, Job};
use std::test::Fail;

#[test]
fn bands_change_nothing(rt: HostRuntime) -> Result<(), Fail> {
    for form in Form::ALL {
        let once = job_at(form, 150)?;
        let whole = drawn(rt.alloc(), &once, CROSSING)?;
        for band in [1, 3, 8, 4096] {
            let banded = Job { band, ..once };
            has_picture(&rt, rt.alloc(), &banded, CROSSING, whole.as_slice())?;
        }
    }
    Ok(())
}
