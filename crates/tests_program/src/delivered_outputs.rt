//! One output, written under a name of its own until it is whole and stored.
use crate::delivered_work::Told;
use delivery::{About, Kind, Scene, deliver_to};
use output_files::{Claims, FileId};
use std::alloc::Global;
use std::test::Fail;
use test_tools::Recorder;

// What is done for an output `out` whose writing ends so, if deeds of this name fail, and this path has the plot.
fn done(
    alloc: Global,
    told: Told,
    fails: &'static str,
    plot: &'static str,
) -> Result<String, Fail> {
    let mut claims = Claims::new(alloc);
    claims.add_plot(FileId {
        device: 1,
        number: 7,
    })?;
    let mut desk = Recorder::new(alloc, fails);
    desk.file = plot;
    Ok(told_of(alloc, desk, &claims, told)?)
}

fn told_of(
    alloc: Global,
    desk: Recorder,
    claims: &Claims,
    told: Told,
) -> Result<String, std::alloc::AllocError> {
    let mut desk = desk;
    let scene = Scene {
        plots: claims,
        are_several: false,
        about: About::RUN,
    };
    let status = deliver_to(&mut desk, alloc, scene, told, "out");
    let log = desk.log.as_str();
    format!(in alloc; "{log}{status}")
}

#[test]
fn whole_and_stored(rt: HostRuntime) -> Result<(), Fail> {
    let log = done(rt.alloc(), Told::Whole, "", "")?;
    let wanted =
        "remove out.part\ncreate out.part\nwrite out.part\nsync out.part\nremark \nrename out\n0";
    assert_eq!(rt; log.as_str(), wanted);
    Ok(())
}

#[test]
fn not_stored(rt: HostRuntime) -> Result<(), Fail> {
    let log = done(rt.alloc(), Told::Whole, "sync", "")?;
    assert_eq!(rt;
        log.as_str(),
        "remove out.part\ncreate out.part\nwrite out.part\nsync out.part\nrefuse \n3"
    );
    Ok(())
}

#[test]
fn not_named(rt: HostRuntime) -> Result<(), Fail> {
    let log = done(rt.alloc(), Told::Whole, "rename", "")?;
    let end = "rename out\nrefuse cannot write out: permission denied\n3";
    assert!(rt; log.as_str().ends_with(end), "{log}");
    Ok(())
}

#[test]
fn not_written(rt: HostRuntime) -> Result<(), Fail> {
    let kept = done(rt.alloc(), Told::Kept, "", "")?;
    assert_eq!(rt;
        kept.as_str(),
        "remove out.part\ncreate out.part\nwrite out.part\nrefuse \n3"
    );
    let lost = done(rt.alloc(), Told::Lost, "", "")?;
    assert_eq!(rt;
        lost.as_str(),
        "remove out.part\ncreate out.part\nwrite out.part\nrefuse \nremove out.part\n3"
    );
    Ok(())
}

#[test]
fn part_is_the_plot(rt: HostRuntime) -> Result<(), Fail> {
    let log = done(rt.alloc(), Told::Whole, "", "out.part")?;
    assert_eq!(rt;
        log.as_str(),
        "refuse cannot write out.part: it is the plot\n3"
    );
    let named = done(rt.alloc(), Told::Whole, "", "out")?;
    assert!(rt; named.as_str().ends_with("rename out\n0"), "{named}");
    Ok(())
}

#[test]
fn devices(rt: HostRuntime) -> Result<(), Fail> {
    let claims = Claims::new(rt.alloc());
    for (fails, wanted) in [
        ("", "reach out\nwrite out\nremark \n0"),
        (
            "reach",
            "reach out\nrefuse cannot write out: permission denied\n3",
        ),
    ] {
        let mut desk = Recorder::new(rt.alloc(), fails);
        desk.file = "out";
        desk.kind = Kind::Device;
        let log = told_of(rt.alloc(), desk, &claims, Told::Whole)?;
        assert_eq!(rt; log.as_str(), wanted);
    }
    Ok(())
}
