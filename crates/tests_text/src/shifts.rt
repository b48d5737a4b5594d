// The signs of texts by sets, and what is selected after them.
use crate::characters_told::has_signs;
use character_sets::{CharacterSet, Encoding, Selection, Sets};
use std::test::Fail;

// A plot with German as its alternate set.
const STANDARD: Sets = Sets {
    standard: CharacterSet::Roman8,
    alternate: CharacterSet::German,
    selection: Selection::Standard,
};

const ALTERNATE: Sets = Sets {
    standard: CharacterSet::Roman8,
    alternate: CharacterSet::German,
    selection: Selection::Alternate,
};

#[test]
fn by_plot(rt: HostRuntime) -> Result<(), Fail> {
    let (by, alloc) = (Encoding::ByPlot, rt.alloc());
    has_signs(&rt, alloc, by, STANDARD, b"|\x0e|\x0f|", "007C 00F6 007C")?;
    has_signs(
        &rt,
        alloc,
        by,
        ALTERNATE,
        b"|\x0e\x0e|\x0f|\x0f",
        "00F6 00F6 007C",
    )?;
    has_signs(&rt, alloc, by, ALTERNATE, b"\xce}|", "00F6 00FC 00F6")?;
    has_signs(&rt, alloc, by, Sets::START, b"|\x0e|\xce", "007C 007C 00F6")?;
    has_signs(&rt, alloc, by, STANDARD, b"", "")
}

// The set of the user's, whatever the plot chooses.
#[test]
fn always(rt: HostRuntime) -> Result<(), Fail> {
    let (latin, alloc) = (Encoding::Always(CharacterSet::Latin1), rt.alloc());
    has_signs(
        &rt,
        alloc,
        latin,
        ALTERNATE,
        b"|\xf6\x0e|\x0f|\x84",
        "007C 00F6 007C 007C",
    )?;
    let (dos, alloc) = (Encoding::Always(CharacterSet::Pc8), rt.alloc());
    has_signs(
        &rt,
        alloc,
        dos,
        STANDARD,
        b"\x94\x0e\x94\xdb\xff",
        "00F6 00F6 00A0",
    )
}

// All control characters, and bytes with no sign.
#[test]
fn controls(rt: HostRuntime) -> Result<(), Fail> {
    let text =
        b"\x00\x01\x02\x03\x04\x05\x06\x07\x08\x09\x0a\x0b\x0c\x0d\x0e\x0f\x10\x11\x12\x13\x14\x15\x16\x17\x18\x19\x1a\x1b\x1c\x1d\x1e\x1f\x7f\x80\x9f\xff";
    for encoding in [
        Encoding::ByPlot,
        Encoding::Always(CharacterSet::Roman8),
        Encoding::Utf8,
    ] {
        has_signs(&rt, rt.alloc(), encoding, STANDARD, text, "BS HT LF CR")?;
    }
    has_signs(
        &rt,
        rt.alloc(),
        Encoding::ByPlot,
        STANDARD,
        b"a\x08b\x09\x0d\x0ac",
        "0061 BS 0062 HT CR LF 0063",
    )
}

// The selection stays after a text.
#[test]
fn after_texts(rt: HostRuntime) {
    let found = [
        STANDARD.after(b"a"),
        STANDARD.after(b"\x0e"),
        STANDARD.after(b"\x0ea"),
        STANDARD.after(b"\x0e\x0fa"),
        ALTERNATE.after(b""),
        ALTERNATE.after(b"\x0f\x0e\x0f."),
        ALTERNATE.after(b"\x0f\x0e\x0e"),
    ];
    let wanted = [
        STANDARD, ALTERNATE, ALTERNATE, STANDARD, ALTERNATE, STANDARD, ALTERNATE,
    ];
    assert_eq!(rt; found, wanted);
    let selected = [
        Sets::START.selected(),
        STANDARD.selected(),
        ALTERNATE.selected(),
    ];
    assert_eq!(rt;
        selected,
        [
            CharacterSet::Roman8,
            CharacterSet::Roman8,
            CharacterSet::German
        ]
    );
}

// Which ways of reading take ASCII as it is.
#[test]
fn sets_with_ascii(rt: HostRuntime) {
    let found = [
        Encoding::ByPlot.reads_ascii(STANDARD),
        Encoding::ByPlot.reads_ascii(ALTERNATE),
        Encoding::Always(CharacterSet::Latin1).reads_ascii(ALTERNATE),
        Encoding::Always(CharacterSet::Windows1252).reads_ascii(ALTERNATE),
        Encoding::Always(CharacterSet::Pc8).reads_ascii(ALTERNATE),
        Encoding::Always(CharacterSet::Ascii).reads_ascii(ALTERNATE),
        Encoding::Always(CharacterSet::German).reads_ascii(STANDARD),
        Encoding::Always(CharacterSet::RomanExtensions).reads_ascii(STANDARD),
        Encoding::Utf8.reads_ascii(ALTERNATE),
    ];
    let wanted = [true, false, true, true, true, true, false, false, true];
    assert_eq!(rt; found, wanted);
}
