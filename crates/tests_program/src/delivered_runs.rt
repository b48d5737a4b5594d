//! Whole runs: their plots are looked for first.
use crate::delivered_work::{Plot, Told};
use delivery::{Kind, Order, Reasons, Single, Streams, deliver_all, deliver_single};
use std::alloc::{AllocError, Global};
use std::test::Fail;
use test_tools::Recorder;

// Standard input, and standard output that a terminal shows or not.
#[derive(Drop)]
struct Console {
    alloc: Global,
    has_screen: bool,
}

impl Streams for Console {
    type Input = &'static [u8];

    type Output = Vec<u8>;

    fn input(&self) -> &'static [u8] {
        b"plot"
    }

    fn output(&self) -> Vec<u8> {
        Vec::new(self.alloc)
    }

    fn has_screen(&self) -> bool {
        self.has_screen
    }
}

const ONE: Plot = Plot {
    sheets: 1,
    told: Told::Whole,
    lost: 0,
};

fn log_of(alloc: Global, desk: &Recorder, status: u8) -> Result<String, AllocError> {
    let log = desk.log.as_str();
    format!(in alloc; "{log}{status}")
}

// What is done for a plot, if this path has a file, which has the name `link`, too; a terminal shows standard output.
fn single_log(
    alloc: Global,
    file: Option<&'static str>,
    path: Option<&'static str>,
    found: &'static str,
) -> Result<String, AllocError> {
    let mut desk = Recorder::new(alloc, "");
    desk.file = found;
    desk.link = "link.part";
    let console = Console {
        alloc,
        has_screen: true,
    };
    let single = Single {
        file,
        path,
        reasons: Reasons::InMessage,
        shuns_screen: path.is_none(),
    };
    let status = deliver_single(&mut desk, &console, alloc, single, &ONE);
    log_of(alloc, &desk, status)
}

// What is done for plots whose output goes into the folder `d`, if this path has a file.
fn folder_log(
    alloc: Global,
    files: &[&str],
    folder: &'static str,
    found: &'static str,
) -> Result<String, AllocError> {
    let mut desk = Recorder::new(alloc, "");
    desk.file = found;
    desk.kind = Kind::File;
    let order = Order {
        files,
        folder,
        extension: "png",
        reasons: Reasons::InMessage,
    };
    let status = deliver_all(&mut desk, alloc, order, &ONE);
    log_of(alloc, &desk, status)
}

#[test]
fn one_plot(rt: HostRuntime) -> Result<(), Fail> {
    let wanted =
        "open a.plt\nremove out.part\ncreate out.part\nwrite out.part\nsync out.part\nremark \nrename out\n0";
    let named = single_log(rt.alloc(), Some("a.plt"), Some("out"), "")?;
    assert_eq!(rt; named.as_str(), wanted);
    let read = single_log(rt.alloc(), None, Some("out"), "")?;
    assert!(rt;
        wanted.ends_with(read.as_str()) && read.as_str().starts_with("remove"),
        "{read}"
    );
    Ok(())
}

#[test]
fn plots_are_looked_for(rt: HostRuntime) -> Result<(), Fail> {
    let part = "refuse cannot write out.part: it is the plot\n3";
    let named = single_log(rt.alloc(), Some("out.part"), Some("out"), "out.part")?;
    assert!(rt; named.as_str().ends_with(part), "{named}");
    let linked = single_log(rt.alloc(), Some("a.plt"), Some("link"), "a.plt")?;
    let link = "refuse cannot write link.part: it is the plot\n3";
    assert!(rt; linked.as_str().ends_with(link), "{linked}");
    let input = single_log(rt.alloc(), None, Some("link"), "/dev/stdin")?;
    assert_eq!(rt; input.as_str(), link);
    // The user gave the output the name of the plot.
    let replaced = single_log(rt.alloc(), Some("out"), Some("out"), "out")?;
    assert!(rt; replaced.as_str().ends_with("rename out\n0"), "{replaced}");
    let folder = folder_log(rt.alloc(), &["d/a.png"], "d", "d/a.png")?;
    assert_eq!(rt;
        folder.as_str(),
        "open d/a.png\nrefuse cannot write d/a.png: it is the plot\n3"
    );
    let both = folder_log(rt.alloc(), &["d/a.png", "b.plt"], "d", "d/a.png")?;
    assert!(rt;
        both.as_str().contains(
            "refuse d/a.png: cannot write d/a.png: it is one of the plots\nopen b.plt\n"
        ),
        "{both}"
    );
    Ok(())
}

#[test]
fn no_place(rt: HostRuntime) -> Result<(), Fail> {
    let screen = single_log(rt.alloc(), None, None, "")?;
    assert_eq!(rt;
        screen.as_str(),
        "refuse a picture is not written to a terminal: use -o\n2"
    );
    let file = folder_log(rt.alloc(), &["a.plt"], "f", "f")?;
    assert_eq!(rt;
        file.as_str(),
        "refuse cannot write f: it is not a folder\n3"
    );
    let missing = folder_log(rt.alloc(), &["a.plt"], "g", "")?;
    assert_eq!(rt;
        missing.as_str(),
        "refuse cannot write g: no such folder\n3"
    );
    let nameless = folder_log(rt.alloc(), &[], "d", "")?;
    assert_eq!(rt;
        nameless.as_str(),
        "refuse cannot write d: the plot on standard input has no name\n3"
    );
    Ok(())
}
