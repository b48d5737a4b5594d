//! What a run does for a command line, at a desk that writes down what is done.
use delivery::Streams;
use plotraster::{Terminal, command, deliver_line, destination_of, output_of, parse, settle};
use std::alloc::Global;
use std::fmt::Display;
use std::test::Fail;
use test_tools::Recorder;

const PLOT: &[u8] = b"IN;SP1;PU0,0;PD400,400;PG;PU0,0;PD400,0;";

// A console that nobody sees.
#[derive(Drop)]
struct Unseen {
    alloc: Global,
}

impl Streams for Unseen {
    type Input = &'static [u8];

    type Output = Vec<u8>;

    fn input(&self) -> &'static [u8] {
        PLOT
    }

    fn output(&self) -> Vec<u8> {
        Vec::new(self.alloc)
    }

    fn has_screen(&self) -> bool {
        false
    }
}

impl Terminal for Unseen {
    fn is_shown(&self) -> bool {
        false
    }

    fn show<M: Display>(&self, _message: &M) {}

    fn end(&self) {}
}

// What is done for a command line, and the exit status. There is a folder `d`.
fn log_of(alloc: Global, line: &str) -> Result<String, Fail> {
    log_on(alloc, PLOT, line)
}

// The same with this plot in each file.
fn log_on(alloc: Global, plot: &'static [u8], line: &str) -> Result<String, Fail> {
    let mut words = Vec::new(alloc);
    for word in line.split(" ") {
        words.push(word)?;
    }
    let matches = parse(command(alloc)?, words.as_slice())?;
    let mut desk = Recorder::new(alloc, "");
    desk.plot = plot;
    let destination = destination_of(&mut desk, output_of(&matches));
    let Ok(line) = settle(&matches, destination) else {
        return Err(Fail::from("not understood"));
    };
    let status = deliver_line(&mut desk, &Unseen { alloc }, alloc, &line, destination);
    let log = desk.log.as_str();
    Ok(format!(in alloc; "{log}{status}")?)
}

#[test]
fn one_place(rt: HostRuntime) -> Result<(), Fail> {
    for (line, wanted) in [
        ("plotraster pbm a.plt", "open a.plt\nwrite /dev/stdout\n0"),
        ("plotraster pbm", "write /dev/stdout\n0"),
        (
            "plotraster pbm a.plt -o /dev/stdout",
            "open a.plt\nwrite /dev/stdout\n0",
        ),
        (
            "plotraster pbm a.plt -o out",
            "open a.plt\nremove out.part\ncreate out.part\nwrite out.part\nsync out.part\nrename out\n0",
        ),
        (
            "plotraster pbm -o out",
            "remove out.part\ncreate out.part\nwrite out.part\nsync out.part\nrename out\n0",
        ),
    ] {
        let log = log_of(rt.alloc(), line)?;
        assert_eq!(rt; log.as_str(), wanted, "{line}");
    }
    Ok(())
}

#[test]
fn in_a_folder(rt: HostRuntime) -> Result<(), Fail> {
    for (line, wanted) in [
        (
            "plotraster pcl a.plt -o d",
            "open a.plt\nremove d/a.pcl.part\ncreate d/a.pcl.part\nwrite d/a.pcl.part\nsync d/a.pcl.part\nrename d/a.pcl\n0",
        ),
        (
            "plotraster pcl a.plt b.plt -o f",
            "refuse cannot write f: no such folder\n3",
        ),
    ] {
        let log = log_of(rt.alloc(), line)?;
        assert_eq!(rt; log.as_str(), wanted, "{line}");
    }
    let sheets = log_of(rt.alloc(), "plotraster draw a.plt -o d")?;
    let sheets = sheets.as_str();
    assert!(rt; sheets.contains("rename d/a-1.png\n"), "{sheets}");
    assert!(rt; sheets.ends_with("rename d/a-2.png\n0"), "{sheets}");
    Ok(())
}

// A plot that leads too far below its page to be turned by a quarter.
const FAR: &[u8] = b"IN;SP1;PU0,0;PD0,-8388600;";

const TOO_FAR: &str = "a line leads too far from the page to be turned\n";

#[test]
fn turned_too_far(rt: HostRuntime) -> Result<(), Fail> {
    for (line, is_refused) in [
        ("plotraster pbm --profile=full a.plt -o out", false),
        (
            "plotraster pbm --profile=full --rotate=90 a.plt -o out",
            true,
        ),
        (
            "plotraster pbm --profile=full --sheet=each --rotate=90 a.plt -o d",
            true,
        ),
        (
            "plotraster svg --profile=full --pens=2 --rotate=90 a.plt -o out",
            false,
        ),
        (
            "plotraster report --profile=full --rotate=90 a.plt -o out",
            false,
        ),
    ] {
        let log = log_on(rt.alloc(), FAR, line)?;
        let log = log.as_str();
        assert_eq!(rt; log.contains(TOO_FAR), is_refused, "{line}");
        assert!(rt;
            log.ends_with(if is_refused { "\n2" } else { "\n0" }),
            "{line}"
        );
    }
    Ok(())
}
