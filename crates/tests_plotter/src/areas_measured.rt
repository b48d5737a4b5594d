// How far areas are seen, and how their edges are counted, by the text of plots on a page of 64 by 64 units.
use areas::{Areas, Shapes};
use full_plot::draw_full;
use hpgl_plot::Page;
use page_fit::{Census, census_of, extent_of, is_off_page};
use plot_page::PenSet;
use std::alloc::Global;
use std::process::Abort;
use std::test::Fail;

// A pen, or 0 for all of them, and a plot. On the next line how far its shapes are seen, in grains, how many strokes and edges there
// are, how many of them are off the page, how many others are cut at its edge, and whether all that is drawn is off the page.
const CASES: &str = "\
0 IW10,10,30,40;PU0,0;RA100,100;
160,160 480,640: 4 0 0

0 IW10,10,30,40;PU40,0;RA100,100;
nothing: 4 0 0

0 IW-20,-20,-10,-10;PU0,0;RA60,60;
nothing: 4 0 0

0 PU-10,-10;RA100,100;
-160,-160 1600,1600: 4 0 4

0 PU65,0;RA100,64;
1040,0 1600,1024: 4 4 0, off the page

0 PU64,0;RA100,64;
1024,0 1600,1024: 4 0 3

0 PU0,-60;RA64,-1;
0,-960 1024,-16: 4 4 0, off the page

0 PU20,30;PM0;PD40,5,10,50;PM2;FP;
160,80 640,800: 3 0 0

0 PU5,5;RR0,0;
80,80 80,80: 4 0 0

0 PW0.1;PU20,20;RA10,10;PU30,0;PD30,30;
160,-32 512,512: 5 0 0

0 SP1;PU0,0;RA10,10;SP2;PU20,20;RA30,40;
0,0 480,640: 8 0 0

1 SP1;PU0,0;RA10,10;SP2;PU20,20;RA30,40;
0,0 160,160: 4 0 0

2 SP1;PU0,0;RA10,10;SP2;PU20,20;RA30,40;
320,320 480,640: 4 0 0

0 PU80,0;PD90,0;
1168,-112 1552,112: 1 1 0, off the page

0 PU65,0;RA100,64;PU80,0;PD0,0;
-112,-112 1600,1024: 5 4 1

3 SP1;PU0,0;RA10,10;SP2;PU20,20;RA30,40;
nothing: 0 0 0, off the page
";

// What is measured and counted of the shapes of a plot.
fn measured(alloc: Global, pens: PenSet, plot: &str) -> Result<String, Fail> {
    let page = Page::new(64, 64, 0, 0)?;
    let drawn = draw_full(alloc, plot.as_bytes(), &page)?;
    let shapes = Shapes {
        strokes: drawn.strokes.as_slice(),
        areas: Areas::all(drawn.areas.as_slice()),
    };
    let Census {
        strokes,
        off_page,
        cut,
    } = census_of(shapes, pens, &page);
    let text = match extent_of(shapes, pens, &page) {
        Some(e) => {
            let (x0, y0, x1, y1) = (e.least_x, e.least_y, e.greatest_x, e.greatest_y);
            format!(in alloc; "{x0},{y0} {x1},{y1}: {strokes} {off_page} {cut}")?
        }
        None => format!(in alloc; "nothing: {strokes} {off_page} {cut}")?,
    };
    if is_off_page(shapes, &pens, &page) {
        Ok(format!(in alloc; "{text}, off the page")?)
    } else {
        Ok(text)
    }
}

#[test]
fn extents_and_counts(rt: HostRuntime) -> Result<(), Fail> {
    let mut found: usize = 0;
    for case in CASES.trim_end().split("\n\n") {
        let (asking, wanted) = case.split_once("\n").ok_or("a case with no answer")?;
        let (pen, plot) = asking.split_once(" ").ok_or("a case with no pen")?;
        let pens = match pen.parse::<u8>() {
            Ok(0) | Err(_) => PenSet::all(),
            Ok(pen) => PenSet::none().with(pen),
        };
        let answer = measured(rt.alloc(), pens, plot)?;
        assert_eq!(rt; answer.as_str(), wanted, "{plot}");
        found = found.saturating_add(1);
    }
    assert_eq!(rt; found, 16);
    Ok(())
}
