//! The path of the file that a plot or one of its sheets is written to.
ghost use Rattle.std.specs.Prelude.{◌≡◌, IfOk, option_map};
ghost use Rattle.std.specs.String.{string_bytes};
ghost use Rattle.output_files.specs.Names.{file_name, sheet_suffix};

use std::alloc::{AllocError, Global};
use std::path::Path;

/// The path of the file in this folder that a plot is written to: the name of the plot's file without its extension, and
/// this extension instead. If the plot has several sheets, the number of the sheet, from 1 on, follows the name, with as many
/// digits as the number of the last sheet has. `None` if the plot's path ends with no name, as `..` does not.
///
/// Errors: only want of memory.
pub fn file_name(
    alloc: Global,
    folder: &str,
    plot: &str,
    sheet: u32,
    sheets: u32,
    extension: &str,
) -> Result<Option<String>, AllocError>
    ensures { IfOk result (λ path. option_map string_bytes path
        ≡ file_name folder.now plot.now sheet sheets extension.now) }
{
    let Some(stem) = Path::new(plot).file_stem() else {
        return Ok(None);
    };
    let slash = if folder.ends_with('/') { "" } else { "/" };
    let suffix = sheet_suffix(alloc, sheet, sheets)?;
    let suffix = suffix.as_str();
    let path = format!(in alloc; "{folder}{slash}{stem}{suffix}.{extension}")?;
    Ok(Some(path))
}

// What follows the name: nothing if there is one sheet or none.
fn sheet_suffix(alloc: Global, sheet: u32, sheets: u32) -> Result<String, AllocError>
    ensures { IfOk result (λ suffix. string_bytes suffix ≡ sheet_suffix sheet sheets) }
{
    if sheets < 2 {
        return Ok(String::new(alloc));
    }
    let last = format!(in alloc; "{sheets}")?;
    let number = format!(in alloc; "{sheet}")?;
    let zeros = "0".repeat(alloc, last.len().saturating_sub(number.len()))?;
    let (zeros, number) = (zeros.as_str(), number.as_str());
    format!(in alloc; "-{zeros}{number}")
}
