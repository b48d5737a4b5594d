//! The forms of a picture by name, and the extension of a path, which may name one.
ghost use Rattle.std.specs.Prelude.{◌≡◌, map, option_map};
ghost use Rattle.std.specs.Str.{str_eq_ignore_ascii_case};
ghost use Rattle.command_line.specs.Forms.{extension_of, form_in, form_named};

use crate::subcommands::Output;
use picture_job::VectorFormat;
use picture_out::Form;
use std::path::Path;

// The name of each form, which is the extension of its files, and what is written.
const FORMS: [(&str, Output); 8] = [
    ("png", Output::Png),
    ("pdf", Output::Vector(VectorFormat::Pdf)),
    ("svg", Output::Vector(VectorFormat::Svg)),
    ("dxf", Output::Vector(VectorFormat::Dxf)),
    ("ppm", Output::Picture(Form::Ppm)),
    ("pbm", Output::Picture(Form::Pbm)),
    ("pcl", Output::Picture(Form::Pcl)),
    ("marks", Output::Picture(Form::Marks)),
];

/// The form of this name, in capitals or small letters.
pub(crate) fn form_named(name: &str) -> Option<Output>
    ensures { result ≡ form_named name.now }
{
    form_in(&FORMS, name)
}

// What the first row of this name has.
fn form_in(rows: &[(&str, Output)], name: &str) -> Option<Output>
    ensures { result ≡ form_in (map (λ row. (row.0.now, row.1)) rows.now) name.now }
{
    for &(form, output) in rows {
        if is_same_word(form, name) {
            return Some(output);
        }
    }
    None
}

// Whether two words differ at most in capitals.
fn is_same_word(a: &str, b: &str) -> bool
    ensures { result ≡ str_eq_ignore_ascii_case a.now b.now }
{
    a.eq_ignore_ascii_case(b)
}

/// The extension of the file at a path; none if the path ends with a slash, and so is a folder's.
pub(crate) fn extension_of(path: &str) -> Option<&str>
    ensures { option_map (λ s. s.now) result ≡ extension_of path.now }
{
    if path.ends_with('/') {
        return None;
    }
    Path::new(path).extension()
}
