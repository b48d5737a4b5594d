//! Plots and their sheets, into a folder.
use crate::delivered_work::{Plot, Told};
use delivery::{Order, Reasons, deliver_each};
use output_files::Claims;
use std::alloc::{AllocError, Global};
use std::test::Fail;
use test_tools::Recorder;

// What is done for plots of so many sheets, if deeds of this name fail.
fn done(
    alloc: Global,
    files: &[&str],
    sheets: u32,
    fails: &'static str,
) -> Result<String, AllocError> {
    let plot = Plot {
        sheets,
        told: Told::Whole,
        lost: 0,
    };
    log_of(alloc, files, plot, fails)
}

fn log_of(
    alloc: Global,
    files: &[&str],
    plot: Plot,
    fails: &'static str,
) -> Result<String, AllocError> {
    let mut desk = Recorder::new(alloc, fails);
    let mut claims = Claims::new(alloc);
    let order = Order {
        files,
        folder: "d",
        extension: "png",
        reasons: Reasons::InMessage,
    };
    let status = deliver_each(&mut desk, alloc, &mut claims, order, &plot);
    let log = desk.log.as_str();
    format!(in alloc; "{log}{status}")
}

#[test]
fn each_plot(rt: HostRuntime) -> Result<(), Fail> {
    let log = done(rt.alloc(), &["a.plt", "b.plt", "c/a.plt"], 1, "")?;
    assert_eq!(rt;
        log.as_str(),
        "open a.plt
remove d/a.png.part
create d/a.png.part
write d/a.png.part
sync d/a.png.part
remark a.plt: 
rename d/a.png
open b.plt
remove d/b.png.part
create d/b.png.part
write d/b.png.part
sync d/b.png.part
remark b.plt: 
rename d/b.png
open c/a.plt
refuse c/a.plt: cannot write d/a.png: it is written for another plot
3"
    );
    Ok(())
}

#[test]
fn each_sheet(rt: HostRuntime) -> Result<(), Fail> {
    let log = done(rt.alloc(), &["a.plt"], 3, "")?;
    let log = log.as_str();
    for name in [
        "rename d/a-1.png\n",
        "rename d/a-2.png\n",
        "rename d/a-3.png\n",
    ] {
        assert!(rt; log.contains(name), "{log}");
    }
    assert!(rt;
        log.ends_with("remark sheet 3: \nrename d/a-3.png\n0"),
        "{log}"
    );
    Ok(())
}

#[test]
fn lost_sheet(rt: HostRuntime) -> Result<(), Fail> {
    let plot = Plot {
        sheets: 3,
        told: Told::Whole,
        lost: 2,
    };
    let log = log_of(rt.alloc(), &["a.plt"], plot, "")?;
    let log = log.as_str();
    assert!(rt;
        log.contains("refuse sheet 2: \nremove d/a-2.png.part\n"),
        "{log}"
    );
    assert!(rt; log.contains("rename d/a-1.png\n"), "{log}");
    assert!(rt; log.ends_with("rename d/a-3.png\n3"), "{log}");
    Ok(())
}

#[test]
fn what_goes_wrong(rt: HostRuntime) -> Result<(), Fail> {
    let unopened = done(rt.alloc(), &["a.plt", "b.plt"], 1, "open")?;
    assert_eq!(rt;
        unopened.as_str(),
        "open a.plt
refuse cannot open a.plt: permission denied
open b.plt
refuse cannot open b.plt: permission denied
3"
    );
    let undrawn = done(rt.alloc(), &["a.plt"], 0, "")?;
    assert_eq!(rt; undrawn.as_str(), "open a.plt\nrefuse no sheets\n1");
    let nameless = done(rt.alloc(), &[".."], 1, "")?;
    assert_eq!(rt; nameless.as_str(), "open ..\nrefuse read failed\n3");
    Ok(())
}
