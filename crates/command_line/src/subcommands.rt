//! The subcommands: their names, what they write, and what help says of them.
ghost use Rattle.std.specs.Prelude.{◌≡◌, map};
ghost use Rattle.command_line.specs.Lines.{kind_in, kind_into, kind_named};

use crate::destination::Destination;
use picture_job::VectorFormat;
use picture_out::Form;

/// What a subcommand does.
#[derive(Clone, Copy)]
pub(crate) enum Kind {
    /// It writes a picture in the form that its options ask for, into a file or a folder.
    Draw(Destination),
    /// It writes what its name says.
    Write(Output),
}

/// What is written.
#[derive(Clone, Copy)]
pub(crate) enum Output {
    /// A picture in a form.
    Picture(Form),
    /// A PNG picture.
    Png,
    /// A vector document.
    Vector(VectorFormat),
    /// A report.
    Report,
}

impl Kind {
    /// What a subcommand does whose output goes there.
    pub(crate) fn into_destination(self, destination: Destination) -> Kind
        ensures { result ≡ kind_into destination self }
    {
        match self {
            Kind::Draw(_) => Kind::Draw(destination),
            Kind::Write(_) => self,
        }
    }
}

/// All subcommands, in the order of the help: the name, what it does, what help says of it, and
/// an example of its use.
pub(crate) const SUBCOMMANDS: [(&str, Kind, &str, &str); 10] = [
    (
        "draw",
        Kind::Draw(Destination::File),
        "Draw the whole plot, smoothed, as PNG or as the extension of the output file says",
        "Unless options say otherwise, draw\n\
            - reads the plot in the profile full, and draws its first sheet;\n\
            - draws on the page that the plot asks for by PS, or on A4;\n\
            - shows what is drawn, wherever on that page it is, with a margin of 5 mm;\n\
            - writes 150 dots per inch, smoothed 4 times, as PNG, or as the output file's extension says: as PDF, SVG or \
            DXF the lines themselves, in PDF those of all sheets, a page each;\n\
            - shows progress on a terminal, and says if little or nothing is drawn.\n\n\
            Example:\n  plotraster draw plan.plt -o plan.png",
    ),
    (
        "png",
        Kind::Write(Output::Png),
        "Write a colour picture as PNG, which browsers and viewers show",
        "Example, smoothed:\n  plotraster png --dots 150 --smooth 4 plan.plt > plan.png",
    ),
    (
        "pdf",
        Kind::Write(Output::Vector(VectorFormat::Pdf)),
        "Write the lines themselves as PDF, which prints and zooms at any size, with a page for each sheet and a layer for \
            each pen",
        "Example, all sheets:\n  plotraster pdf --profile full --sheet each plan.plt > plan.pdf",
    ),
    (
        "svg",
        Kind::Write(Output::Vector(VectorFormat::Svg)),
        "Write the lines themselves as SVG, which browsers show and drawing programs edit",
        "Example, the drawing and 5 mm around it:\n  plotraster svg --fit --margin 5 plan.plt > plan.svg",
    ),
    (
        "dxf",
        Kind::Write(Output::Vector(VectorFormat::Dxf)),
        "Write the lines themselves as DXF, which CAD programs read, with a layer for each pen, and labels as texts",
        "Example, with labels:\n  plotraster dxf --profile full plan.plt > plan.dxf",
    ),
    (
        "marks",
        Kind::Write(Output::Picture(Form::Marks)),
        "Write a line for each pixel that is drawn: its row, its column, its pen and its colour",
        "Example, a page of 64 by 64 units, 8 by 8 pixels:\n  printf 'SP1;PU0,28;PD64,28;' | \
            plotraster marks --width 64 --height 64 --dots 127",
    ),
    (
        "pbm",
        Kind::Write(Output::Picture(Form::Pbm)),
        "Write a black and white picture, Netpbm's portable bitmap (P4)",
        "Example:\n  plotraster pbm --dots 300 plan.plt > plan.pbm",
    ),
    (
        "ppm",
        Kind::Write(Output::Picture(Form::Ppm)),
        "Write a colour picture, Netpbm's portable pixmap (P6)",
        "Example:\n  plotraster ppm --dots 150 plan.plt > plan.ppm",
    ),
    (
        "pcl",
        Kind::Write(Output::Picture(Form::Pcl)),
        "Write a black and white picture for a printer, PCL 5 raster graphics",
        "Example, to a printer that knows PCL:\n  plotraster pcl --dots 300 plan.plt | lp -o raw",
    ),
    (
        "report",
        Kind::Write(Output::Report),
        "Describe a plot: its page, its strokes pen by pen with their boxes, and what was skipped or bad",
        "Example, how far pen 2 draws, in sixteenths of a plotter unit:\n  plotraster report plan.plt | \
            grep '^pen 2 '",
    ),
];

/// What the subcommand of this name does.
pub(crate) fn kind_of(name: &str) -> Option<Kind>
    ensures { result ≡ kind_named name.now }
{
    kind_in(&SUBCOMMANDS, name)
}

// What the first row of this name has.
fn kind_in(rows: &[(&str, Kind, &str, &str)], name: &str) -> Option<Kind>
    ensures { result ≡ kind_in (map (λ row. (row.0.now, row.1)) rows.now) name.now }
{
    for &(subcommand, kind, _, _) in rows {
        if subcommand == name {
            return Some(kind);
        }
    }
    None
}
