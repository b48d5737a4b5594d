//! What a run may not write.
ghost use Rattle.std.specs.Prelude.{◌≡◌, ℕ, List, ◌||◌, IfOk, IfErr, false};
ghost use Rattle.std.specs.Str.{bytes_eq};
ghost use Rattle.output_files.specs.declared.file_id.FileId.{FileId};
ghost use Rattle.output_files.specs.Claims.{claim_of, has_plot, is_claimed, is_plot, is_same_file};

use crate::file_id::FileId;
use std::alloc::{AllocError, Global};
use std::collections::BTreeSet;

/// Whether a file may be written.
#[derive(Clone, Copy, Debug, PartialEq, Eq)]
pub enum Claim {
    /// It may be written.
    Free,
    /// Its path was asked for before, for another plot or another sheet.
    Taken,
    /// It is one of the plots.
    Plot,
}

/// What a run may not write: the plots that it reads, and the paths that were asked for.
#[derive(Drop)]
pub struct Claims {
    alloc: Global,
    plots: BTreeSet<FileId>,
    paths: BTreeSet<String>,
}

impl Claims {
    /// No plots, and no path that was asked for.
    pub fn new(alloc: Global) -> Claims
        ensures plots { (file : FileId) → has_plot result file ≡ false }
        ensures paths { (path : List ℕ) → is_claimed result path ≡ false }
    {
        Claims {
            alloc,
            plots: BTreeSet::new(alloc),
            paths: BTreeSet::new(alloc),
        }
    }

    /// One more plot. Errors: only want of memory, and nothing changes.
    pub fn add_plot(&mut self, plot: FileId) -> Result<(), AllocError>
        ensures added { IfOk result (λ _. (file : FileId) →
            has_plot self.new file ≡ (is_same_file plot file || has_plot self.old file)) }
        ensures unchanged { IfErr result (λ _. (file : FileId) → has_plot self.new file ≡ has_plot self.old file) }
        ensures paths { (path : List ℕ) → is_claimed self.new path ≡ is_claimed self.old path }
    {
        match self.plots.insert(plot) {
            Ok(_) => Ok(()),
            Err(_) => Err(AllocError),
        }
    }

    /// Whether there is a file, and it is one of the plots.
    pub fn is_plot(&self, found: Option<FileId>) -> bool
        ensures { result ≡ is_plot self.now found }
    {
        match found {
            Some(file) => self.plots.contains(&file),
            None => false,
        }
    }

    /// Asks for the file of this path, where `found` is now, if there is one. Whatever the answer, the path is then asked
    /// for. Errors: only want of memory, and nothing changes.
    pub fn claim(&mut self, path: &str, found: Option<FileId>) -> Result<Claim, AllocError>
        ensures answer { IfOk result (λ claim. claim ≡ claim_of (is_claimed self.old path.now) (is_plot self.old found)) }
        ensures claimed { IfOk result (λ _. (other : List ℕ) →
            is_claimed self.new other ≡ (bytes_eq path.now other || is_claimed self.old other)) }
        ensures unchanged { IfErr result (λ _. (other : List ℕ) → is_claimed self.new other ≡ is_claimed self.old other) }
        ensures plots { (file : FileId) → has_plot self.new file ≡ has_plot self.old file }
    {
        let asked = format!(in self.alloc; "{path}")?;
        let is_new = match self.paths.insert(asked) {
            Ok(is_new) => is_new,
            Err(_) => return Err(AllocError),
        };
        Ok(claim_of(!is_new, self.is_plot(found)))
    }
}

// By whether a path was asked for before, and whether the file that has it is a plot.
fn claim_of(is_claimed: bool, is_plot: bool) -> Claim
    ensures { result ≡ claim_of is_claimed is_plot }
{
    match (is_claimed, is_plot) {
        (true, _) => Claim::Taken,
        (false, true) => Claim::Plot,
        (false, false) => Claim::Free,
    }
}
