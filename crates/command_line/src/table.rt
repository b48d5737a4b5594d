//! The table of the options. It decides what `clap` is told of them, and so what help says.
ghost use Rattle.std.specs.Prelude.{◌≡◌, map, option_map};
ghost use Rattle.command_line.specs.Options.{default_of, options};
ghost use Rattle.command_line.specs.Tables.{row_of};

use crate::groups::Group;
use crate::subcommands::Kind;

/// What an option takes.
#[derive(Clone, Copy)]
pub(crate) enum Value {
    /// Any text.
    Word,
    /// A whole number from the first to the second.
    Number(u32, u32),
    /// Nothing.
    Flag,
}

/// An option. Of the defaults, and of what help says, the first whose group has the subcommand counts.
#[derive(Clone, Copy)]
pub(crate) struct OptionRow<'a> {
    /// The long name.
    pub(crate) name: &'a str,
    /// The short name.
    pub(crate) short: Option<char>,
    /// Other long names, which help leaves out.
    pub(crate) aliases: &'a [&'a str],
    /// The subcommands that have it.
    pub(crate) group: Group,
    /// What it takes.
    pub(crate) value: Value,
    /// What it has if it is not given. Where it is to be known whether it is given, only help says a default.
    pub(crate) defaults: &'a [(Group, &'a str)],
    /// What help calls its value.
    pub(crate) value_name: &'a str,
    /// What help says of it.
    pub(crate) help: &'a [(Group, &'a str)],
}

// All options, in the order of the help.
static OPTIONS: [OptionRow<'static>; 26] = [
    OptionRow {
        name: "width",
        short: None,
        aliases: &[],
        group: Group::All,
        value: Value::Number(64, 524288),
        defaults: &[],
        value_name: "UNITS",
        help: &[(
            Group::All,
            "Width of the page in plotter units of 1/40 mm, 64 to 65536, with --profile full to 524288 (11880 is A4's 297 mm) [default: \
             11880]",
        )],
    },
    OptionRow {
        name: "height",
        short: None,
        aliases: &[],
        group: Group::All,
        value: Value::Number(64, 524288),
        defaults: &[],
        value_name: "UNITS",
        help: &[(
            Group::All,
            "Height of the page in plotter units of 1/40 mm, 64 to 65536, with --profile full to 524288 (8400 is A4's 210 mm) [default: \
             8400]",
        )],
    },
    OptionRow {
        name: "page",
        short: None,
        aliases: &[],
        group: Group::All,
        value: Value::Word,
        defaults: &[],
        value_name: "NAME",
        help: &[
            (
                Group::Draw,
                "Paper of the page, instead of --width and --height: a0 to a5, b4, letter, legal, tabloid, ansi-a to ansi-e, \
        arch-d or arch-e; landscape, or portrait with -portrait after the name, or plot for the size that the plot asks \
        for by PS (the page if none is given, and then fitted, as by --fit) [default: plot]",
            ),
            (
                Group::All,
                "Paper of the page, instead of --width and --height: a0 to a5, b4, letter, legal, tabloid, ansi-a to ansi-e, \
        arch-d or arch-e; landscape, or portrait with -portrait after the name, or plot for the size that the plot asks \
        for by PS [default: a4]",
            ),
        ],
    },
    OptionRow {
        name: "left",
        short: None,
        aliases: &[],
        group: Group::All,
        value: Value::Number(0, 65536),
        defaults: &[(Group::All, "0")],
        value_name: "UNITS",
        help: &[(
            Group::All,
            "How far the page reaches left of the plot's (0,0), in plotter units, 0 to 65536",
        )],
    },
    OptionRow {
        name: "below",
        short: None,
        aliases: &[],
        group: Group::All,
        value: Value::Number(0, 65536),
        defaults: &[(Group::All, "0")],
        value_name: "UNITS",
        help: &[(
            Group::All,
            "How far the page reaches below the plot's (0,0), in plotter units, 0 to 65536",
        )],
    },
    OptionRow {
        name: "fit",
        short: None,
        aliases: &[],
        group: Group::All,
        value: Value::Flag,
        defaults: &[],
        value_name: "",
        help: &[(
            Group::All,
            "Fit the page to what the selected pens draw, and a margin; the page that the other options give is kept, with a \
    message, if that is not possible",
        )],
    },
    OptionRow {
        name: "margin",
        short: None,
        aliases: &[],
        group: Group::All,
        value: Value::Number(0, 100),
        defaults: &[],
        value_name: "MM",
        help: &[
            (
                Group::Draw,
                "Margin around the drawing, if the page is fitted, in millimetres, 0 to 100 [default: 5]",
            ),
            (
                Group::All,
                "Margin of --fit around the drawing, in millimetres, 0 to 100 [default: 1]",
            ),
        ],
    },
    OptionRow {
        name: "rotate",
        short: None,
        aliases: &[],
        group: Group::All,
        value: Value::Word,
        defaults: &[],
        value_name: "DEGREES",
        help: &[(
            Group::All,
            "Turn the page counterclockwise, with all that is on it, by 0, 90, 180 or 270 degrees; a report shows the page as it \
        lies before [default: 0]",
        )],
    },
    OptionRow {
        name: "profile",
        short: None,
        aliases: &[],
        group: Group::All,
        value: Value::Word,
        defaults: &[(Group::Draw, "full"), (Group::All, "core")],
        value_name: "NAME",
        help: &[(
            Group::All,
            "How the plot is read: 'core', or 'full' with further instructions of HP-GL and HP-GL/2",
        )],
    },
    OptionRow {
        name: "sheet",
        short: None,
        aliases: &[],
        group: Group::All,
        value: Value::Word,
        defaults: &[],
        value_name: "SHEET",
        help: &[(
            Group::All,
            "Sheet to draw in the profile full, 0 to 4194304: counted from 1, or 0 for all sheets in one picture, or each for \
        a picture of each sheet, in the folder of --output, or a page in a PDF [default: 1]",
        )],
    },
    OptionRow {
        name: "characters",
        short: None,
        aliases: &[],
        group: Group::All,
        value: Value::Word,
        defaults: &[],
        value_name: "NAME",
        help: &[(
            Group::All,
            "How the bytes of labels are read in the profile full, whatever the plot chooses: roman-8, latin-1, windows-1252, \
        pc-8, ascii or utf-8",
        )],
    },
    OptionRow {
        name: "output",
        short: Some('o'),
        aliases: &[],
        group: Group::All,
        value: Value::Word,
        defaults: &[],
        value_name: "PATH",
        help: &[(
            Group::All,
            "File to write instead of standard output, or folder of the files to write; a file has its name only when it \
        is whole",
        )],
    },
    OptionRow {
        name: "verbose",
        short: None,
        aliases: &[],
        group: Group::All,
        value: Value::Flag,
        defaults: &[],
        value_name: "",
        help: &[(
            Group::All,
            "Say on standard error what was drawn, what lies off the page, and what was skipped",
        )],
    },
    OptionRow {
        name: "colours",
        short: None,
        aliases: &["colors"],
        group: Group::All,
        value: Value::Word,
        defaults: &[],
        value_name: "LIST",
        help: &[(
            Group::All,
            "Colours of pens, whatever the plot sets, as all=black,2=#f80: pens or ranges, each with rrggbb, #rrggbb, #rgb or a \
        name of HTML 4; the last one for a pen decides",
        )],
    },
    OptionRow {
        name: "widths",
        short: None,
        aliases: &[],
        group: Group::All,
        value: Value::Word,
        defaults: &[],
        value_name: "LIST",
        help: &[(
            Group::All,
            "Widths of pens in millimetres, 0 to 20, whatever the plot sets, as all=0.35,2=0.7: pens or ranges, each with a \
        width; the last one for a pen decides",
        )],
    },
    OptionRow {
        name: "dots",
        short: None,
        aliases: &[],
        group: Group::Rasters,
        value: Value::Number(10, 1200),
        defaults: &[],
        value_name: "DPI",
        help: &[
            (
                Group::Draw,
                "Resolution in dots per inch, 10 to 1200 [default: 150]",
            ),
            (
                Group::Pcl,
                "Resolution in dots per inch: 75, 100, 150, 200, 300 or 600 [default: 100]",
            ),
            (
                Group::All,
                "Resolution in dots per inch, 10 to 1200 [default: 100]",
            ),
        ],
    },
    OptionRow {
        name: "pens",
        short: None,
        aliases: &[],
        group: Group::Pictures,
        value: Value::Word,
        defaults: &[(Group::All, "all")],
        value_name: "LIST",
        help: &[(
            Group::All,
            "Pens to draw, each 1 to 255: 'all', or pens and ranges separated by commas, as 1,3,5-7",
        )],
    },
    OptionRow {
        name: "progress",
        short: None,
        aliases: &[],
        group: Group::Rasters,
        value: Value::Flag,
        defaults: &[],
        value_name: "",
        help: &[
            (
                Group::Draw,
                "Show on standard error, if it is a terminal, how many rows of a long picture are written, and how many are left: \
    draw does so without this option",
            ),
            (
                Group::All,
                "Show on standard error, if it is a terminal, how many rows of a long picture are written, and how many are left",
            ),
        ],
    },
    OptionRow {
        name: "size",
        short: None,
        aliases: &[],
        group: Group::Draw,
        value: Value::Number(16, 20000),
        defaults: &[],
        value_name: "PIXELS",
        help: &[(
            Group::All,
            "Most pixels of the picture's longer side, 16 to 20000, instead of --dots; it is smoothed 8 times, or as much as \
        1200 dots per inch allow, unless --smooth says less",
        )],
    },
    OptionRow {
        name: "smooth",
        short: None,
        aliases: &[],
        group: Group::Smoothed,
        value: Value::Number(1, 8),
        defaults: &[],
        value_name: "TIMES",
        help: &[
            (
                Group::Draw,
                "Smoothing, 1 to 8: the plot is painted this many times finer, and each pixel is the mean of as many by as many \
        pixels; --dots times --smooth is at most 1200, and the default is less where --dots is over 300; only PNG and PPM \
        may be smoothed, and for another form the option is refused [default: 4]",
            ),
            (
                Group::All,
                "Smoothing, 1 to 8: the plot is painted this many times finer, and each pixel is the mean of as many by as many \
        pixels; --dots times --smooth is at most 1200 [default: 1]",
            ),
        ],
    },
    OptionRow {
        name: "labels",
        short: None,
        aliases: &[],
        group: Group::Texts,
        value: Value::Word,
        defaults: &[],
        value_name: "NAME",
        help: &[(
            Group::All,
            "How a DXF has labels in the profile full: 'text' for texts in place of their strokes, or 'strokes' for the strokes \
        only [default: text]",
        )],
    },
    OptionRow {
        name: "form",
        short: None,
        aliases: &[],
        group: Group::Draw,
        value: Value::Word,
        defaults: &[],
        value_name: "NAME",
        help: &[(
            Group::All,
            "Form of the picture: 'png', 'pdf', 'svg', 'dxf', 'ppm', 'pbm', 'pcl' or 'marks'; without it the extension of the \
        output file says the form [default: png]",
        )],
    },
    OptionRow {
        name: "quiet",
        short: None,
        aliases: &[],
        group: Group::Draw,
        value: Value::Flag,
        defaults: &[],
        value_name: "",
        help: &[(
            Group::All,
            "Show no progress, and do not say that little or nothing is drawn",
        )],
    },
    OptionRow {
        name: "band",
        short: None,
        aliases: &[],
        group: Group::Rows,
        value: Value::Number(1, 4096),
        defaults: &[(Group::All, "64")],
        value_name: "ROWS",
        help: &[(
            Group::All,
            "Most rows of pixels painted at a time, 1 to 4096; the output is the same for each",
        )],
    },
    OptionRow {
        name: "from",
        short: None,
        aliases: &[],
        group: Group::Rows,
        value: Value::Number(0, 399999),
        defaults: &[(Group::All, "0")],
        value_name: "ROW",
        help: &[(
            Group::All,
            "First row of pixels to write, counted from 0 at the top, 0 to 399999; only row 0 comes with a header",
        )],
    },
    OptionRow {
        name: "rows",
        short: None,
        aliases: &[],
        group: Group::Rows,
        value: Value::Number(1, 400000),
        defaults: &[],
        value_name: "ROWS",
        help: &[(
            Group::All,
            "Most rows of pixels to write, 1 to 400000; the files of strips that follow one another, joined, are the whole \
        picture [default: all that are left]",
        )],
    },
];

/// All options.
pub(crate) fn options() -> &'static [OptionRow<'static>]
    ensures { map row_of result.now ≡ options }
{
    &OPTIONS
}

/// What an option has if it is not given to a subcommand.
pub(crate) fn default_of<'a>(kind: Kind, defaults: &'a [(Group, &'a str)]) -> Option<&'a str>
    ensures { option_map (λ text. text.now) result ≡ default_of kind (map (λ it. (it.0, it.1.now)) defaults.now) }
{
    for &(group, text) in defaults {
        if group.has(kind) {
            return Some(text);
        }
    }
    None
}

/// What help says of an option of a subcommand.
pub(crate) fn help_of<'a>(kind: Kind, help: &'a [(Group, &'a str)]) -> &'a str {
    match default_of(kind, help) {
        Some(text) => text,
        None => "",
    }
}
