//! Groups of subcommands, which have the same options.
ghost use Rattle.std.specs.Prelude.{◌≡◌};
ghost use Rattle.command_line.specs.Options.{has, has_draw, has_output, has_rows, has_texts, is_pcl, is_picture, is_raster, is_smoothed};

use crate::subcommands::{Kind, Output};
use picture_job::VectorFormat;
use picture_out::Form;

/// A group of subcommands.
#[derive(Clone, Copy)]
pub(crate) enum Group {
    /// All of them.
    All,
    /// Those that write a picture.
    Pictures,
    /// Those that write a picture of pixels.
    Rasters,
    /// Those that write a picture that may be smoothed.
    Smoothed,
    /// Those that write a picture in which labels may be texts.
    Texts,
    /// Those that write a picture whose rows are independent, and nothing else.
    Rows,
    /// The subcommand draw.
    Draw,
    /// The subcommand pcl.
    Pcl,
}

impl Group {
    /// Whether a subcommand is in the group.
    pub(crate) fn has(self, kind: Kind) -> bool
        ensures { result ≡ has self kind }
    {
        match kind {
            Kind::Draw(_) => self.has_draw(),
            Kind::Write(output) => self.has_output(output),
        }
    }

    fn has_draw(self) -> bool
        ensures { result ≡ has_draw self }
    {
        match self {
            Group::All | Group::Pictures | Group::Rasters | Group::Smoothed => true,
            Group::Texts | Group::Draw => true,
            Group::Rows | Group::Pcl => false,
        }
    }

    fn has_output(self, output: Output) -> bool
        ensures { result ≡ has_output self output }
    {
        match self {
            Group::All => true,
            Group::Pictures => is_picture(output),
            Group::Rasters => is_raster(output),
            Group::Smoothed => is_smoothed(output),
            Group::Texts => has_texts(output),
            Group::Rows => has_rows(output),
            Group::Draw => false,
            Group::Pcl => is_pcl(output),
        }
    }
}

fn is_picture(output: Output) -> bool
    ensures { result ≡ is_picture output }
{
    match output {
        Output::Picture(_) | Output::Png | Output::Vector(_) => true,
        Output::Report => false,
    }
}

fn is_raster(output: Output) -> bool
    ensures { result ≡ is_raster output }
{
    match output {
        Output::Picture(_) | Output::Png => true,
        Output::Vector(_) | Output::Report => false,
    }
}

/// Whether this may be smoothed.
pub(crate) fn is_smoothed(output: Output) -> bool
    ensures { result ≡ is_smoothed output }
{
    match output {
        Output::Picture(Form::Ppm) | Output::Png => true,
        Output::Picture(Form::Marks | Form::Pbm | Form::Pcl) => false,
        Output::Vector(_) | Output::Report => false,
    }
}

/// Whether labels may be texts in this.
pub(crate) fn has_texts(output: Output) -> bool
    ensures { result ≡ has_texts output }
{
    match output {
        Output::Vector(VectorFormat::Dxf) => true,
        Output::Vector(VectorFormat::Svg | VectorFormat::Pdf) => false,
        Output::Picture(_) | Output::Png | Output::Report => false,
    }
}

fn has_rows(output: Output) -> bool
    ensures { result ≡ has_rows output }
{
    match output {
        Output::Picture(_) => true,
        Output::Png | Output::Vector(_) | Output::Report => false,
    }
}

/// Whether PCL is written.
pub(crate) fn is_pcl(output: Output) -> bool
    ensures { result ≡ is_pcl output }
{
    match output {
        Output::Picture(Form::Pcl) => true,
        Output::Picture(Form::Marks | Form::Pbm | Form::Ppm) => false,
        Output::Png | Output::Vector(_) | Output::Report => false,
    }
}
