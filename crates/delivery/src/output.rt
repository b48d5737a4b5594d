//! An output is written under a name of its own, and gets its name when it is whole and stored.
ghost use Rattle.std.specs.Prelude.{◌≡◌, ◌<◌, ℕ, Bool, List, Option};
ghost use Rattle.output_files.specs.declared.file_id.FileId.{FileId};
ghost use Rattle.output_files.specs.Claims.{is_plot};
ghost use Rattle.delivery.specs.Care.{HasNoPlotAt, IsSettled, MayReplace, is_file, is_open_file, part_of};
ghost use Rattle.delivery.specs.Deeds.{IsFailure, status_of};
ghost use Rattle.delivery.specs.Folders.{LooksForFolder, is_folder};
ghost use Rattle.delivery.specs.Deliveries.{Anything, Delivers, HasName, IsLeft, IsMade, IsNamed, IsPut, IsReachable, IsShown, IsStored, IsToBeNamed, IsWritten, LooksAt, MayBeMade, LooksForDevice, Never};

use crate::about::About;
use crate::desk::{Desk, Kind};
use crate::ending::{Answer, Content, Ending};
use crate::messages::{refuse_memory, refuse_plot, refuse_write};
use output_files::{Claims, FileId};
use std::alloc::Global;
use std::io::Write;

/// What a run knows when it writes an output: the plots that it reads, whether there are several, and what it says messages
/// are about.
#[derive(Clone, Copy)]
pub struct Scene<'a> {
    pub plots: &'a Claims,
    pub are_several: bool,
    pub about: About<'a>,
}

/// Writes the content into what has this path, if that is open already or no regular file. Else it is written into a new
/// file of the name `PATH.part`, which gets its name if all was written and stored, and stays or is removed if not.
/// No plot is written, renamed over or removed; one that has this very path is replaced only if that may be.
pub fn deliver_to<D: Desk, C: Content>(
    desk: &mut D,
    alloc: Global,
    scene: Scene<'_>,
    content: C,
    path: &str,
) -> u8
    ensures { (own : Option (List ℕ)) → Delivers D.does (is_plot scene.entry.plots.now) own desk.old desk.new result
        (MayReplace (is_plot scene.entry.plots.now) own path.now) Anything (IsPut (C.item content) path.now) }
{
    if is_open_file(path) {
        return write_device(desk, scene.about, content, path);
    }
    if has_device(desk, path) {
        return write_device(desk, scene.about, content, path);
    }
    write_file(desk, alloc, scene, content, path)
}

// Whether there is something of this name that is no regular file.
fn has_device<D: Desk>(desk: &mut D, path: &str) -> bool
    ensures { LooksForDevice D.does desk.old path.now result desk.new }
{
    match desk.look(path) {
        Ok(found) => !is_file(found.kind),
        Err(_) => false,
    }
}

/// Whether there is a folder of this name.
pub fn has_folder<D: Desk>(desk: &mut D, path: &str) -> bool
    ensures { LooksForFolder D.does desk.old path.now result desk.new }
{
    match desk.look(path) {
        Ok(found) => is_folder(found.kind),
        Err(_) => false,
    }
}

fn is_folder(kind: Kind) -> bool
    ensures { result ≡ is_folder kind }
{
    match kind {
        Kind::Folder => true,
        Kind::File | Kind::Device => false,
    }
}

fn is_file(kind: Kind) -> bool
    ensures { result ≡ is_file kind }
{
    match kind {
        Kind::File => true,
        Kind::Folder | Kind::Device => false,
    }
}

// Whether this is a name of the system for what is open already.
fn is_open_file(path: &str) -> bool
    ensures { result ≡ is_open_file path.now }
{
    let bytes = path.as_bytes();
    path == "/dev/stderr" || bytes.starts_with(b"/dev/fd/") || bytes.starts_with(b"/proc/self/fd/")
}

// Writes the content into what has this path.
fn write_device<D: Desk, C: Content>(desk: &mut D, about: About<'_>, content: C, path: &str) -> u8
    ensures { (plots : Option FileId → Bool) → (own : Option (List ℕ)) → Delivers D.does plots own desk.old desk.new result
        (IsReachable path.now) Anything (IsPut (C.item content) path.now) }
{
    match desk.reach(path) {
        Ok(device) => {
            let (_, answer) = desk.write(path, content, device);
            answer.tell(desk, about);
            status_of(answer.ending())
        }
        Err(error) => refuse_write(desk, &about, path, &error),
    }
}

/// The name of standard output, whatever it leads to.
const OUTPUT: &str = "/dev/stdout";

/// Writes the content to standard output, which is not synced.
pub fn write_stdout<D: Desk, C: Content, W: Write + Drop>(
    desk: &mut D,
    about: About<'_>,
    content: C,
    to: W,
) -> u8
    ensures { (plots : Option FileId → Bool) → (own : Option (List ℕ)) → Delivers D.does plots own desk.old desk.new result
        Anything Anything (IsShown (C.item content)) }
{
    let (_, answer) = desk.write(OUTPUT, content, to);
    answer.tell(desk, about);
    status_of(answer.ending())
}

// The exit status.
fn status_of(ending: Ending) -> u8
    ensures { result ≡ status_of ending }
{
    match ending {
        Ending::Whole => 0,
        Ending::Kept(status) | Ending::Lost(status) => status,
    }
}

// Writes the content into a file of another name beside the one that is asked for.
fn write_file<D: Desk, C: Content>(
    desk: &mut D,
    alloc: Global,
    scene: Scene<'_>,
    content: C,
    path: &str,
) -> u8
    ensures { (own : Option (List ℕ)) → Delivers D.does (is_plot scene.entry.plots.now) own desk.old desk.new result
        (MayReplace (is_plot scene.entry.plots.now) own path.now) Anything (IsNamed (C.item content) path.now) }
{
    let Ok(part) = format!(in alloc; "{path}.part") else {
        return refuse_memory(desk, &scene.about);
    };
    let part = part.as_str();
    if scene.plots.is_plot(id_at(desk, part)) {
        return refuse_plot(desk, &scene.about, scene.are_several, part);
    }
    make(desk, scene.about, content, part, path)
}

// The file that has this path, if there is one.
pub(crate) fn id_at<D: Desk>(desk: &mut D, path: &str) -> Option<FileId>
    ensures { LooksAt D.does desk.old path.now result desk.new }
{
    match desk.look(path) {
        Ok(found) => Some(found.id),
        Err(_) => None,
    }
}

// Makes the file, which may replace an older one, and fills it.
fn make<D: Desk, C: Content>(
    desk: &mut D,
    about: About<'_>,
    content: C,
    part: &str,
    path: &str,
) -> u8
    requires { part.now ≡ part_of path.now }
    ensures { (plots : Option FileId → Bool) → (own : Option (List ℕ)) → Delivers D.does plots own desk.old desk.new result
        (MayBeMade plots own part.now path.now) Anything (IsNamed (C.item content) path.now) }
{
    // An older one may be a link to another file, which must not be written.
    desk.remove(part);
    match desk.create(part) {
        Ok(file) => fill(desk, about, content, file, part, path),
        Err(error) => refuse_write(desk, &about, part, &error),
    }
}

// Gives a file that is stored its name. The exit status is 0 only if it has it.
fn give_name<D: Desk>(desk: &mut D, about: About<'_>, part: &str, path: &str) -> u8
    requires { part.now ≡ part_of path.now }
    ensures { (plots : Option FileId → Bool) → (own : Option (List ℕ)) → Delivers D.does plots own desk.old desk.new result
        (IsStored plots own part.now path.now) (IsToBeNamed part.now path.now) (HasName path.now) }
{
    match desk.rename(part, path) {
        Ok(()) => 0,
        Err(error) => refuse_write(desk, &about, path, &error),
    }
}

// Says why a writing failed, and removes what is of no use.
fn leave<D: Desk, A: Answer>(desk: &mut D, about: About<'_>, answer: &A, part: &str) -> u8
    requires { IsFailure (A.ends answer.now) }
    ensures { (plots : Option FileId → Bool) → (own : Option (List ℕ)) → Delivers D.does plots own desk.old desk.new result
        (λ earlier. HasNoPlotAt plots earlier part.now) (IsLeft (A.ends answer.now) part.now) Never }
{
    let ending = answer.ending();
    answer.tell(desk, about);
    match ending {
        Ending::Whole => 0,
        Ending::Kept(status) => status,
        Ending::Lost(status) => {
            desk.remove(part);
            status
        }
    }
}

// Has the system store what was written whole, and gives it its name.
fn store<D: Desk, B: Answer + Drop>(
    desk: &mut D,
    about: About<'_>,
    answer: B,
    file: D::File,
    part: &str,
    path: &str,
) -> u8
    requires part { part.now ≡ part_of path.now }
    requires whole { B.ends answer ≡ Ending.Whole }
    ensures { (plots : Option FileId → Bool) → (own : Option (List ℕ)) → Delivers D.does plots own desk.old desk.new result
        (IsWritten plots own part.now path.now) (IsSettled part.now) (HasName path.now) }
{
    match desk.sync(part, file) {
        Ok(()) => {
            answer.tell(desk, about);
            give_name(desk, about, part, path)
        }
        Err(_) => {
            let answer = answer.unstored();
            leave(desk, about, &answer, part)
        }
    }
}

// Writes the content into its file, which then gets its name, stays or is removed.
fn fill<D: Desk, C: Content>(
    desk: &mut D,
    about: About<'_>,
    content: C,
    file: D::File,
    part: &str,
    path: &str,
) -> u8
    requires { part.now ≡ part_of path.now }
    ensures { (plots : Option FileId → Bool) → (own : Option (List ℕ)) → Delivers D.does plots own desk.old desk.new result
        (IsMade plots own part.now path.now) (IsSettled part.now) (IsNamed (C.item content) path.now) }
{
    let (file, answer) = desk.write(part, content, file);
    match answer.ending() {
        Ending::Whole => store(desk, about, answer, file, part, path),
        Ending::Kept(_) | Ending::Lost(_) => {
            // It is closed first, since what is said could go into it, if standard error was closed.
            drop(file);
            leave(desk, about, &answer, part)
        }
    }
}
