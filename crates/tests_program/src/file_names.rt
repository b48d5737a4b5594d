use output_files::file_name;
use std::alloc::{AllocError, Global};
use std::test::Fail;

const NAMES: &str = "\
out/a.png
out/a.b.png
//.plt.png
./plan.png
none
none
out/a-1.png
out/a-9.png
out/a-09.png
out/a-10.png
out/a-007.png
";

// Appends the path of a sheet of so many.
fn append_name(
    alloc: Global,
    names: &mut String,
    folder: &str,
    plot: &str,
    (sheet, sheets): (u32, u32),
) -> Result<(), AllocError> {
    match file_name(alloc, folder, plot, sheet, sheets, "png")? {
        Some(path) => names.push_str(path.as_str())?,
        None => names.push_str("none")?,
    }
    names.push_str("\n")
}

#[test]
fn names_of_files(rt: HostRuntime) -> Result<(), Fail> {
    let alloc = rt.alloc();
    let mut names = String::new(alloc);
    append_name(alloc, &mut names, "out", "a.plt", (1, 1))?;
    append_name(alloc, &mut names, "out/", "deep/a.b.plt", (1, 0))?;
    append_name(alloc, &mut names, "//", ".plt", (1, 1))?;
    append_name(alloc, &mut names, ".", "plan", (1, 1))?;
    append_name(alloc, &mut names, "out", "..", (1, 1))?;
    append_name(alloc, &mut names, "out", "deep/..", (1, 2))?;
    append_name(alloc, &mut names, "out", "a.plt", (1, 2))?;
    append_name(alloc, &mut names, "out", "a.plt", (9, 9))?;
    append_name(alloc, &mut names, "out", "a.plt", (9, 10))?;
    append_name(alloc, &mut names, "out", "a.plt", (10, 10))?;
    append_name(alloc, &mut names, "out", "a.plt", (7, 100))?;
    assert_eq!(rt; names.as_str(), NAMES);
    Ok(())
}
