//! What a command line chooses by several of its values.
use plotraster::{
    Destination, command, extension_of, has_all_pages, has_reasons, parse, picture_apart, settle,
};
use std::alloc::Global;
use std::test::Fail;

// Whether sheets are apart, whether they are pages, whether reasons are said, and the extension.
fn told(alloc: Global, line: &str) -> Result<String, Fail> {
    let mut words = Vec::new(alloc);
    for word in line.split(" ") {
        words.push(word)?;
    }
    let matches = parse(command(alloc)?, words.as_slice())?;
    let Ok(line) = settle(&matches, Destination::Folder) else {
        return Err(Fail::from("not understood"));
    };
    let (apart, pages) = (picture_apart(&line).is_some(), has_all_pages(&line));
    let (reasons, extension) = (has_reasons(&line), extension_of(&line.task));
    Ok(format!(in alloc; "{apart} {pages} {reasons} {extension}")?)
}

#[test]
fn pictures_apart(rt: HostRuntime) -> Result<(), Fail> {
    for (line, wanted) in [
        ("plotraster draw a.plt -o d", "true false true png"),
        (
            "plotraster draw --quiet a.plt -o d.2026",
            "true false true png",
        ),
        (
            "plotraster draw --form=pdf a.plt -o d",
            "false true true pdf",
        ),
        (
            "plotraster draw --sheet=2 a.plt -o d",
            "false false true png",
        ),
        (
            "plotraster draw --profile=core a.plt -o d",
            "false false true png",
        ),
        (
            "plotraster svg --profile=full --sheet=each a.plt -o d",
            "true false true svg",
        ),
        (
            "plotraster draw --form=dxf a.plt -o d",
            "true false true dxf",
        ),
        (
            "plotraster pdf --profile=full --sheet=each a.plt -o d",
            "false false true pdf",
        ),
        ("plotraster pcl a.plt -o d", "false false false pcl"),
        ("plotraster report a.plt -o d", "false false false report"),
    ] {
        let told = told(rt.alloc(), line)?;
        assert_eq!(rt; told.as_str(), wanted, "{line}");
    }
    Ok(())
}
