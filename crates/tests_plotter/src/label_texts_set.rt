// The texts of labels and where they are, by the text of plots: how many strokes there were before a label and after it,
// and for each line its text, its start, its end and its top. A place is 1,824 grains wide, a capital 1,728 high, and a line
// 3,456 high.
use crate::full_cases::{Asked, has_answers, labels_told};
use character_sets::Encoding;
use full_plot::{Carousel, FullDrawn, draw_full, draw_full_with, keep_labels_of, labels_on};
use hpgl_plot::Page;
use labels::move_labels;
use page_fit::Corner;
use std::alloc::Global;
use std::test::Fail;

const LABELS: &str = "\
DT*;PU100,100;LBLI*;LBL*;
0-5 LI 1600,1600 5248,1600 1600,3328;5-7 L 5248,1600 7072,1600 5248,3328;

// strokes before it, and blanks in it
DT*;PD10,10;PU0,0;LBL I*;
1-6 L I 0,0 5472,0 0,1728;

// CR, LF, BS and HT end a line
DT*;LBL\r\nI\u{8}\tL*;
0-7 L 0,0 1824,0 0,1728 I 0,-3456 1824,-3456 0,-1728 L 14592,-3456 16416,-3456 14592,-1728;

// along the path, to the label's direction
DT*;DV1;DI0,1;LBLI*;
0-5 LI -1728,0 5184,0 -1728,1216;

// centred by LO
DT*;LO5;LBLI*;
0-5 LI -1520,-864 2128,-864 -1520,864;

// each line by itself
DT*;LO5;LBLI\rL*;
0-7 LI -1520,-864 2128,-864 -1520,864 L -608,-864 1216,-864 -608,864;

// what PB prints, and no symbol
DT*;BLL*;SM+;PU10,10;SM;PB;
2-4 L 160,160 1984,160 160,1888;

// sheets are counted together
DT*;LBL*;PG;LBI*;
0-2 L 0,0 1824,0 0,1728;2-5 I 1824,0 3648,0 1824,1728;

// without strokes there is no label: by pen 0, of blanks, of characters that have none, and in polygon mode
DT*;SP0;LBL*;SP1;LB *;LB\u{e}\u{f}*;LB*;PM0;LBL*;PB;PM2;PD10,10;
none

// characters over 127
DT*;CS0;LBL\u{3}\u{3}*;
0-2 L 0,0 1824,0 0,1728;";

#[test]
fn gives_the_texts_of_labels(rt: HostRuntime) -> Result<(), Fail> {
    has_answers(&rt, rt.alloc(), Asked::Labels, LABELS, 10)
}

// The labels of a plot on two sheets.
const TWO_SHEETS: &[u8] = b"DT*;PU100,100;LBLI*;PG;PU0,0;LBL*;LBI*;";

fn drawn(alloc: Global) -> Result<FullDrawn, Fail> {
    let page = Page::new(1000, 1000, 0, 0)?;
    Ok(draw_full_with(
        alloc,
        Encoding::ByPlot,
        TWO_SHEETS,
        &page,
        &Carousel::empty(),
        true,
    )?)
}

#[test]
fn keeps_the_labels_of_a_sheet(rt: HostRuntime) -> Result<(), Fail> {
    let alloc = rt.alloc();
    let drawn = drawn(alloc)?;
    let count = drawn.strokes.len();
    let mut labels = drawn.labels;
    let (second, before) = labels_on(labels.as_slice(), drawn.ends.as_slice(), count, 2);
    let told = labels_told(alloc, second)?;
    let want = "5-7 L 0,0 1824,0 0,1728;7-10 I 1824,0 3648,0 1824,1728;";
    assert_eq!(rt; (told.as_str(), before), (want, 5));
    keep_labels_of(&mut labels, drawn.ends.as_slice(), count, 2);
    let told = labels_told(alloc, labels.as_slice())?;
    let want = "0-2 L 0,0 1824,0 0,1728;2-5 I 1824,0 3648,0 1824,1728;";
    assert_eq!(rt; told.as_str(), want);
    keep_labels_of(&mut labels, drawn.ends.as_slice(), count, 3);
    assert_eq!(rt; labels.len(), 0);
    let page = Page::new(1000, 1000, 0, 0)?;
    let unasked = draw_full(alloc, TWO_SHEETS, &page)?;
    assert_eq!(rt; unasked.labels.len(), 0);
    Ok(())
}

#[test]
fn moves_labels_to_another_page(rt: HostRuntime) -> Result<(), Fail> {
    let alloc = rt.alloc();
    let drawn = drawn(alloc)?;
    let mut labels = drawn.labels;
    labels.truncate(1);
    move_labels(labels.as_mut_slice(), Corner { x: 10, y: -20 });
    let told = labels_told(alloc, labels.as_slice())?;
    assert_eq!(rt; told.as_str(), "0-5 LI 1440,1920 5088,1920 1440,3648;");
    move_labels(
        labels.as_mut_slice(),
        Corner {
            x: 65_600,
            y: -8_388_500,
        },
    );
    let told = labels_told(alloc, labels.as_slice())?;
    let want = "0-5 LI -1048160,134217712 -1044512,134217712 -1048160,134217712;";
    assert_eq!(rt; told.as_str(), want);
    Ok(())
}
