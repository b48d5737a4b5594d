//! What help says of the command and of the options.

/// The version of the program, which is the changelog's.
pub const VERSION: &str = "0.3.0";

/// What help says of a command, and an example of its use.
#[derive(Clone, Copy)]
pub(crate) struct HelpPage<'a> {
    pub(crate) about: &'a str,
    pub(crate) example: &'a str,
}

pub(crate) const FILE: &str =
    "The plot files; without one the plot is read from standard input, and several need --output and a folder";

pub(crate) const TOP: HelpPage<'static> = HelpPage {
    about: "Turn an HP-GL or HP-GL/2 plot into a raster picture with exact pixels, or a PDF, SVG or DXF of its lines, or describe it",
    example: "Example:\n  plotraster draw plan.plt -o plan.png\n\n\
        'plotraster draw --help' lists the options of draw, and so for each command.",
};
