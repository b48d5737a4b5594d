//! Laws of the files that are asked for one after another.
ghost use Rattle.std.specs.Prelude.{◌≡◌, List, map, false};
ghost use Rattle.std.specs.List.{AllByRecursion, IsDistinct};
ghost use Rattle.std.specs.Str.{bytes_eq};
ghost use Rattle.output_files.specs.Claims.{is_claimed, is_plot};
ghost use Rattle.output_files.specs.Written.{Asked, written};

use crate::claims::Claims;

/// No path is written twice.
pub fn no_path_is_written_twice(claims: &Claims)
    ensures { (files : List Asked) →
        IsDistinct bytes_eq (map (λ file. file.path) (written (is_claimed claims.now) (is_plot claims.now) files)) }
{}

/// No path is written that was asked for before.
pub fn no_claimed_path_is_written(claims: &Claims)
    ensures { (files : List Asked) → AllByRecursion (λ file. is_claimed claims.now file.path ≡ false)
        (written (is_claimed claims.now) (is_plot claims.now) files) }
{}

/// No plot is written.
pub fn no_plot_is_written(claims: &Claims)
    ensures { (files : List Asked) → AllByRecursion (λ file. is_plot claims.now file.found ≡ false)
        (written (is_claimed claims.now) (is_plot claims.now) files) }
{}
