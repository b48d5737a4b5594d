//! What a command line chooses by several of its values.
ghost use Rattle.std.specs.Prelude.{◌≡◌};
ghost use Rattle.std.specs.Option.{option_copied};
ghost use Rattle.plotraster.specs.Choices.{draws_all, extension_of, form_extension, format_extension, has_all_pages, has_pages, has_reasons, is_core, is_document, is_pdf, is_standard_output};
ghost use Rattle.plotraster.specs.Choices.{of_all_sheets, picture_apart, reading_for};

use command_line::{Line, Task};
use picture_job::{Picture, Reading, VectorFormat};
use picture_out::Form;

/// The picture that each sheet has in a folder: if that is asked for, or by draw in the profile full if no sheet is named. The
/// sheets of a PDF are pages of one file.
pub fn picture_apart<'r>(line: &'r Line<'_, '_>) -> Option<&'r Picture>
    ensures { option_copied result ≡ picture_apart line.now }
{
    match &line.task {
        Task::Picture(_) if is_pdf(&line.task) => None,
        Task::Picture(picture) if line.each_sheet || draws_all(line) => Some(picture),
        _ => None,
    }
}

/// How the plot is read for one file: for a PDF by draw all sheets, if none is named.
pub fn reading_for(line: &Line<'_, '_>) -> Reading
    ensures { result ≡ reading_for line.now }
{
    if has_all_pages(line) {
        of_all_sheets(line.reading)
    } else {
        line.reading
    }
}

/// Whether all sheets are pages of a PDF though no sheet is named.
pub fn has_all_pages(line: &Line<'_, '_>) -> bool
    ensures { result ≡ has_all_pages line.now }
{
    draws_all(line) && is_pdf(&line.task)
}

// draw writes all sheets in the profile full, if it can and no sheet is named.
fn draws_all(line: &Line<'_, '_>) -> bool
    ensures { result ≡ draws_all line.now }
{
    line.interactive && !line.sheet_named && !is_core(line.reading)
}

fn is_core(reading: Reading) -> bool
    ensures { result ≡ is_core reading }
{
    match reading {
        Reading::Core => true,
        Reading::Full { .. } => false,
    }
}

fn is_pdf(task: &Task) -> bool
    ensures { result ≡ is_pdf task.now }
{
    match task {
        Task::Picture(Picture::Vector(job)) => is_format_of_pages(job.format),
        _ => false,
    }
}

fn is_format_of_pages(format: VectorFormat) -> bool
    ensures { result ≡ has_pages format }
{
    match format {
        VectorFormat::Pdf => true,
        VectorFormat::Svg | VectorFormat::Dxf => false,
    }
}

/// The same reading, of all sheets.
pub fn of_all_sheets(reading: Reading) -> Reading
    ensures { result ≡ of_all_sheets reading }
{
    match reading {
        Reading::Core => Reading::Core,
        Reading::Full { encoding, .. } => Reading::Full { sheet: 0, encoding },
    }
}

/// The extension of the files in a folder: the name of the command, or for draw of the form.
pub fn extension_of(task: &Task) -> &'static str
    ensures { result.now ≡ extension_of task.now }
{
    match task {
        Task::Picture(Picture::Rows { job, .. }) => extension_of_form(job.form),
        Task::Picture(Picture::Png(_)) => "png",
        Task::Picture(Picture::Vector(job)) => extension_of_format(job.format),
        Task::Report(_) => "report",
    }
}

fn extension_of_format(format: VectorFormat) -> &'static str
    ensures { result.now ≡ format_extension format }
{
    match format {
        VectorFormat::Pdf => "pdf",
        VectorFormat::Svg => "svg",
        VectorFormat::Dxf => "dxf",
    }
}

fn extension_of_form(form: Form) -> &'static str
    ensures { result.now ≡ form_extension form }
{
    match form {
        Form::Marks => "marks",
        Form::Pbm => "pbm",
        Form::Ppm => "ppm",
        Form::Pcl => "pcl",
    }
}

/// Whether messages say why a plot cannot be opened: those of draw and of a document. The others are those of former versions.
pub fn has_reasons(line: &Line<'_, '_>) -> bool
    ensures { result ≡ has_reasons line.now }
{
    line.interactive || is_document(&line.task)
}

fn is_document(task: &Task) -> bool
    ensures { result ≡ is_document task.now }
{
    matches!(task, Task::Picture(Picture::Png(_) | Picture::Vector(_)))
}

/// Whether a path is a link of the system to standard output, which must not be replaced by a file.
pub fn is_standard_output(path: &str) -> bool
    ensures { result ≡ is_standard_output path.now }
{
    path == "/dev/stdout" || path == "/dev/fd/1" || path == "/proc/self/fd/1"
}
