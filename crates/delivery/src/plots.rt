//! The plots of a run: they are looked for first, and none of them is written.
ghost use Rattle.std.specs.Prelude.{◌≡◌, IfErr, IfOk, Option, map, true};
ghost use Rattle.output_files.specs.declared.file_id.FileId.{FileId};
ghost use Rattle.output_files.specs.Claims.{is_plot};
ghost use Rattle.delivery.specs.Looks.{IsPlot, Looks, LooksForPlots};

use crate::desk::Desk;
use crate::output::id_at;
use output_files::{Claims, FileId};
use std::alloc::{AllocError, Global};

/// Claims of the plots with these paths, where they are found.
///
/// Errors: only want of memory.
pub fn claims_of<D: Desk>(desk: &mut D, alloc: Global, files: &[&str]) -> Result<Claims, AllocError>
    ensures plots { IfOk result (λ claims. LooksForPlots D.does desk.old (is_plot claims) (map (λ file. file.now) files.now) desk.new) }
    ensures looks { IfErr result (λ _. Looks D.does desk.old desk.new) }
{
    let mut claims = Claims::new(alloc);
    for &file in files {
        let found = id_at(desk, file);
        add_found(&mut claims, found)?;
    }
    Ok(claims)
}

// Claims what was found, if there is anything.
fn add_found(claims: &mut Claims, found: Option<FileId>) -> Result<(), AllocError>
    ensures found { IfOk result (λ _. IsPlot (is_plot claims.new) found) }
    ensures others { IfOk result (λ _. (id : Option FileId) → is_plot claims.old id ≡ true → is_plot claims.new id ≡ true) }
{
    match found {
        Some(plot) => claims.add_plot(plot),
        None => Ok(()),
    }
}
