//! Where the pages of a document of sheets end.
ghost use Rattle.std.specs.Prelude.{◌≡◌, ◌≤◌, IfOk, length, max};
ghost use Rattle.conversion.specs.Vectors.{page_ends};

use std::alloc::{AllocError, Global};

/// Where the pages of so many strokes end: where a sheet ends that has strokes, and where the strokes end. There is at least
/// one page.
pub fn page_ends(alloc: Global, count: usize, ends: &[usize]) -> Result<Vec<usize>, AllocError>
    ensures pages { IfOk result (λ pages. pages.items ≡ page_ends count ends.now) }
    ensures few { IfOk result (λ pages. length pages.items ≤ max 1 count) }
{
    let mut pages = Vec::new(alloc);
    if count == 0 {
        pages.push(0)?;
        return Ok(pages);
    }
    let mut at = 0;
    for &end in ends {
        let here = end.min(count);
        if at < here {
            pages.push(here)?;
            at = here;
        }
    }
    if at < count {
        pages.push(count)?;
    }
    Ok(pages)
}
