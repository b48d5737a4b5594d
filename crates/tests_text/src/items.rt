// Plots and what they are cut into, by the printed forms of their items.
use crate::item_cases::{Asked, has_answer, has_answers};
use crate::texts::has_text;
use hpgl_text::{Base, lex, read_coded, read_number};
use std::alloc::{AllocError, Global};
use std::process::Abort;
use std::test::Fail;

const INSTRUCTIONS: &str = "\
pu0,28pd-64.5,.25
Item { at: 0, body: Params(PenUp, [Number { millionths: 0 }, Number { millionths: 28000000 }]), \
    code: [80, 85], unended: false }
Item { at: 6, body: Params(PenDown, [Number { millionths: -64500000 }, Number { millionths: 250000 }]), \
    code: [80, 68], unended: false }

PU;SP3;AA4,5,6
Item { at: 0, body: Params(PenUp, []), code: [80, 85], unended: false }
Item { at: 3, body: Params(SelectPen, [Number { millionths: 3000000 }]), code: [83, 80], unended: false }
Item { at: 7, body: Params(ArcAbsolute, [Number { millionths: 4000000 }, Number { millionths: 5000000 }, \
    Number { millionths: 6000000 }]), code: [65, 65], unended: false }

DT$;LBL$
Item { at: 0, body: Terminator(Terminator { byte: 36, is_printed: false }), code: [68, 84], unended: false }
Item { at: 4, body: Label([76]), code: [76, 66], unended: false }

LBL
Item { at: 0, body: Label([76]), code: [76, 66], unended: true }

// Any commas and blanks separate numbers.
PA1, 2,,3 4;
Item { at: 0, body: Params(PlotAbsolute, [Number { millionths: 1000000 }, Number { millionths: 2000000 }, \
    Number { millionths: 3000000 }, Number { millionths: 4000000 }]), code: [80, 65], unended: false }

// A terminator holds until another is defined, or until IN or DF.
DT$;PU;LBA$
Item { at: 0, body: Terminator(Terminator { byte: 36, is_printed: false }), code: [68, 84], unended: false }
Item { at: 4, body: Params(PenUp, []), code: [80, 85], unended: false }
Item { at: 7, body: Label([65]), code: [76, 66], unended: false }

DT$;IN;LB$\x03
Item { at: 0, body: Terminator(Terminator { byte: 36, is_printed: false }), code: [68, 84], unended: false }
Item { at: 4, body: Params(Initialize, []), code: [73, 78], unended: false }
Item { at: 7, body: Label([36]), code: [76, 66], unended: false }

// The byte after SM is the symbol, also a quote.
SM\";PU
Item { at: 0, body: Skipped, code: [83, 77], unended: false }
Item { at: 4, body: Params(PenUp, []), code: [80, 85], unended: false }

ZZ1,2;CO\"a;b\";PA1:\x1b%-1B\x1b.(;!\x1bE
Item { at: 0, body: Skipped, code: [90, 90], unended: false }
Item { at: 6, body: Skipped, code: [67, 79], unended: false }
Item { at: 14, body: Bad, code: [80, 65], unended: false }
Item { at: 27, body: Stray(33), code: [0, 0], unended: false }

INDFIPSCROIWSPPWPCPUPDPAPREAERCIAAARSIDI
Item { at: 0, body: Params(Initialize, []), code: [73, 78], unended: false }
Item { at: 2, body: Params(DefaultValues, []), code: [68, 70], unended: false }
Item { at: 4, body: Params(InputPoints, []), code: [73, 80], unended: false }
Item { at: 6, body: Params(Scale, []), code: [83, 67], unended: false }
Item { at: 8, body: Params(Rotate, []), code: [82, 79], unended: false }
Item { at: 10, body: Params(InputWindow, []), code: [73, 87], unended: false }
Item { at: 12, body: Params(SelectPen, []), code: [83, 80], unended: false }
Item { at: 14, body: Params(PenWidth, []), code: [80, 87], unended: false }
Item { at: 16, body: Params(PenColour, []), code: [80, 67], unended: false }
Item { at: 18, body: Params(PenUp, []), code: [80, 85], unended: false }
Item { at: 20, body: Params(PenDown, []), code: [80, 68], unended: false }
Item { at: 22, body: Params(PlotAbsolute, []), code: [80, 65], unended: false }
Item { at: 24, body: Params(PlotRelative, []), code: [80, 82], unended: false }
Item { at: 26, body: Params(EdgeAbsolute, []), code: [69, 65], unended: false }
Item { at: 28, body: Params(EdgeRelative, []), code: [69, 82], unended: false }
Item { at: 30, body: Params(Circle, []), code: [67, 73], unended: false }
Item { at: 32, body: Params(ArcAbsolute, []), code: [65, 65], unended: false }
Item { at: 34, body: Params(ArcRelative, []), code: [65, 82], unended: false }
Item { at: 36, body: Params(CharacterSize, []), code: [83, 73], unended: false }
Item { at: 38, body: Params(Direction, []), code: [68, 73], unended: false }

";

#[test]
fn instructions(rt: HostRuntime) -> Result<(), Fail> {
    has_answers(&rt, rt.alloc(), Asked::Items, INSTRUCTIONS, 10)
}

const POLYLINES: &str = "\
PU0,28;PE7?c_;
Item { at: 0, body: Params(PenUp, [Number { millionths: 0 }, Number { millionths: 28000000 }]), \
    code: [80, 85], unended: false }
Item { at: 7, body: Coded([Entry { at: 10, what: Pair { up: false, absolute: false, \
    x: Number { millionths: 64000000 }, y: Number { millionths: 0 } } }]), code: [80, 69], unended: false }

PU0,28;PE7>c?o_;
Item { at: 0, body: Params(PenUp, [Number { millionths: 0 }, Number { millionths: 28000000 }]), \
    code: [80, 85], unended: false }
Item { at: 7, body: Coded([Entry { at: 12, what: Pair { up: false, absolute: false, \
    x: Number { millionths: 64000000 }, y: Number { millionths: 0 } } }]), code: [80, 69], unended: false }

PU0,28;PE7:c?c_;
Item { at: 0, body: Params(PenUp, [Number { millionths: 0 }, Number { millionths: 28000000 }]), \
    code: [80, 85], unended: false }
Item { at: 7, body: Coded([Entry { at: 10, what: Pen(2) }, \
    Entry { at: 12, what: Pair { up: false, absolute: false, x: Number { millionths: 64000000 }, \
    y: Number { millionths: 0 } } }]), code: [80, 69], unended: false }

PU0,28;PE7<=_w?c_;
Item { at: 0, body: Params(PenUp, [Number { millionths: 0 }, Number { millionths: 28000000 }]), \
    code: [80, 85], unended: false }
Item { at: 7, body: Coded([Entry { at: 12, what: Pair { up: true, absolute: true, x: Number { millionths: 0 }, \
    y: Number { millionths: 12000000 } } }, \
    Entry { at: 14, what: Pair { up: false, absolute: false, x: Number { millionths: 64000000 }, \
    y: Number { millionths: 0 } } }]), code: [80, 69], unended: false }

PU0,28;PE:;
Item { at: 0, body: Params(PenUp, [Number { millionths: 0 }, Number { millionths: 28000000 }]), \
    code: [80, 85], unended: false }
Item { at: 7, body: Coded([Entry { at: 9, what: Bad }]), code: [80, 69], unended: false }

PU0,28;PE7?c!_#_!;
Item { at: 0, body: Params(PenUp, [Number { millionths: 0 }, Number { millionths: 28000000 }]), \
    code: [80, 85], unended: false }
Item { at: 7, body: Coded([Entry { at: 10, what: Pair { up: false, absolute: false, \
    x: Number { millionths: 64000000 }, y: Number { millionths: 0 } } }, Entry { at: 12, what: Stray(33) }, \
    Entry { at: 14, what: Stray(35) }, Entry { at: 15, what: Bad }]), code: [80, 69], unended: false }

// The flags are those of the next pair, also after a pen.
PE7=:c_w?c_;
Item { at: 0, body: Coded([Entry { at: 4, what: Pen(2) }, \
    Entry { at: 6, what: Pair { up: false, absolute: true, x: Number { millionths: 0 }, \
    y: Number { millionths: 12000000 } } }, \
    Entry { at: 8, what: Pair { up: false, absolute: false, x: Number { millionths: 64000000 }, \
    y: Number { millionths: 0 } } }]), code: [80, 69], unended: false }

// A stray within a pair comes before the next pair.
PE7_!_w_;
Item { at: 0, body: Coded([Entry { at: 3, what: Pair { up: false, absolute: false, \
    x: Number { millionths: 0 }, y: Number { millionths: 0 } } }, Entry { at: 4, what: Stray(33) }, \
    Entry { at: 6, what: Pair { up: false, absolute: false, x: Number { millionths: 12000000 }, \
    y: Number { millionths: 0 } } }]), code: [80, 69], unended: false }

// Two bits of each coordinate are a fraction.
PE7>c_?o;
Item { at: 0, body: Coded([Entry { at: 5, what: Pair { up: false, absolute: false, \
    x: Number { millionths: 0 }, y: Number { millionths: 64000000 } } }]), code: [80, 69], unended: false }

// A number without its last digit is bad if the polyline has its end.
PE??;
Item { at: 0, body: Coded([Entry { at: 2, what: Bad }]), code: [80, 69], unended: false }

PEG
Item { at: 0, body: Coded([]), code: [80, 69], unended: true }

PE??????
Item { at: 0, body: Coded([Entry { at: 2, what: Bad }]), code: [80, 69], unended: true }

";

// Digits of their last places, with bytes that are no text.
const DIGITS_OF_EIGHT_BITS: &[u8] = b"PU0,28;PE\x3f\xc1\xbf;";

const ITEMS_OF_EIGHT_BITS: &str = "\
Item { at: 0, body: Params(PenUp, [Number { millionths: 0 }, Number { millionths: 28000000 }]), \
    code: [80, 85], unended: false }
Item { at: 7, body: Coded([Entry { at: 9, what: Pair { up: false, absolute: false, \
    x: Number { millionths: 64000000 }, y: Number { millionths: 0 } } }]), code: [80, 69], unended: false }
";

const A_PAIR_WITH_ONE_NUMBER: &[u8] = b"PU0,28;PE\x3f\xc1;";

const ITEMS_OF_ONE_NUMBER: &str = "\
Item { at: 0, body: Params(PenUp, [Number { millionths: 0 }, Number { millionths: 28000000 }]), \
    code: [80, 85], unended: false }
Item { at: 7, body: Coded([Entry { at: 9, what: Bad }]), code: [80, 69], unended: false }
";

#[test]
fn polylines(rt: HostRuntime) -> Result<(), Fail> {
    has_answers(&rt, rt.alloc(), Asked::Items, POLYLINES, 12)?;
    has_answer(
        &rt,
        rt.alloc(),
        Asked::Items,
        DIGITS_OF_EIGHT_BITS,
        ITEMS_OF_EIGHT_BITS,
    )?;
    has_answer(
        &rt,
        rt.alloc(),
        Asked::Items,
        A_PAIR_WITH_ONE_NUMBER,
        ITEMS_OF_ONE_NUMBER,
    )
}

// A number and where it ends.
fn number_told(alloc: Global, text: &str, at: usize) -> Result<String, AllocError> {
    match read_number(text.as_bytes(), at) {
        Some((number, end)) => format!(in alloc; "{number:?} to {end}; "),
        None => format!(in alloc; "none; "),
    }
}

#[test]
fn numbers(rt: HostRuntime) -> Result<(), Fail> {
    let mut told = number_told(rt.alloc(), "PA-1.5,7", 2)?;
    told.push_str(number_told(rt.alloc(), "8388608", 0)?.as_str())?;
    told.push_str(number_told(rt.alloc(), "12", 3)?.as_str())?;
    told.push_str(number_told(rt.alloc(), "2.25", 0)?.as_str())?;
    has_text(
        &rt,
        told.as_str(),
        "Number { millionths: -1500000 } to 6; none; none; Number { millionths: 2250000 } to 4; ",
    );
    Ok(())
}

// A number of a polyline and where it ends.
fn coded_told(alloc: Global, text: &[u8], at: usize, base: Base) -> Result<String, AllocError> {
    match read_coded(text, at, base) {
        Some((number, end)) => format!(in alloc; "{number} to {end}"),
        None => format!(in alloc; "none"),
    }
}

// Fails unless this is a number of a polyline.
fn has_coded(
    rt: &(impl Abort + AllocGlobal),
    text: &[u8],
    at: usize,
    base: Base,
    wanted: &str,
) -> Result<(), AllocError> {
    has_text(rt, coded_told(rt.alloc(), text, at, base)?.as_str(), wanted);
    Ok(())
}

#[test]
fn coded_numbers(rt: HostRuntime) -> Result<(), AllocError> {
    has_coded(&rt, b"G\xc2", 0, Base::SixtyFour, "100 to 2")?;
    has_coded(&rt, b"Ge", 0, Base::ThirtyTwo, "100 to 2")?;
    has_coded(&rt, b"PE\xc6", 2, Base::SixtyFour, "-3 to 3")?;
    has_coded(&rt, b"?????\xbf", 0, Base::SixtyFour, "0 to 6")?;
    has_coded(&rt, b"??????\xbf", 0, Base::SixtyFour, "none")?;
    has_coded(&rt, b"??????_", 0, Base::ThirtyTwo, "0 to 7")?;
    has_coded(&rt, b"???????_", 0, Base::ThirtyTwo, "none")?;
    has_coded(&rt, b"_", 1, Base::ThirtyTwo, "none")
}

#[test]
fn items_are_small(rt: HostRuntime) {
    assert_eq!(rt; std::mem::size_of::<hpgl_text::Item<'static>>(), 56);
}

// How many items a plot has, or why it is refused.
fn cut(alloc: Global, plot: &[u8]) -> Result<String, AllocError> {
    match lex(alloc, plot) {
        Ok(program) => format!(in alloc; "{} items", program.items().len()),
        Err(fault) => format!(in alloc; "{fault:?}"),
    }
}

#[test]
fn longest_plots(rt: HostRuntime) -> Result<(), Fail> {
    let mut plot = vec![in rt.alloc(); b';'; 67_108_864]?;
    let longest = cut(rt.alloc(), plot.as_slice())?;
    plot.push(b';')?;
    let longer = cut(rt.alloc(), plot.as_slice())?;
    has_text(&rt, longest.as_str(), "0 items");
    has_text(&rt, longer.as_str(), "TooLong");
    Ok(())
}
