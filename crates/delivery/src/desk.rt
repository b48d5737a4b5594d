//! What a run does besides computing: the deeds that change files.
ghost use Rattle.std.specs.Prelude.{is_ok};
ghost use Rattle.std.specs.Result.{result_ok};
ghost use Rattle.delivery.specs.Deeds.{Deed};

use crate::ending::Content;
use crate::voice::Voice;
use output_files::FileId;
use std::io::{Error, Read, Write};

/// What a path leads to.
#[derive(Clone, Copy, PartialEq, Eq)]
pub enum Kind {
    /// A regular file.
    File,
    /// A folder.
    Folder,
    /// Something else, such as a device or a pipe.
    Device,
}

/// What has a path.
#[derive(Clone, Copy)]
pub struct Found {
    pub id: FileId,
    pub kind: Kind,
}

/// Files, and those to whom a run speaks.
pub trait Desk: Voice {
    /// A plot that is open.
    type Plot: Read + Drop;

    /// A file that is written.
    type File: Write + Drop;

    /// Looks what has this path, whatever links lead there.
    fn look(&mut self, path: &str) -> Result<Found, Error>
        ensures { Self.does self.old (Deed.looked path.now (result_ok result)) self.new };

    /// Opens a plot.
    fn open(&mut self, path: &str) -> Result<Self::Plot, Error>
        ensures { Self.does self.old (Deed.opened path.now (is_ok result)) self.new };

    /// Makes an empty file, or empties the one that has this path.
    fn create(&mut self, path: &str) -> Result<Self::File, Error>
        ensures { Self.does self.old (Deed.created path.now (is_ok result)) self.new };

    /// Opens a device, a pipe or a file that is open already, to be written as it is.
    fn reach(&mut self, path: &str) -> Result<Self::File, Error>
        ensures { Self.does self.old (Deed.reached path.now (is_ok result)) self.new };

    /// Writes a content into what was opened to be written under this path, and gives that back.
    fn write<C: Content, W: Write + Drop>(
        &mut self,
        path: &str,
        content: C,
        to: W,
    ) -> (W, C::Answer)
        ensures done { Self.does self.old (Deed.wrote path.now (C.item content) (C.Answer.ends result.1)) self.new }
        ensures wrote { C.wrote content (C.Answer.ends result.1) };

    /// Has the system store all of a file that has this path, and closes it.
    fn sync(&mut self, path: &str, file: Self::File) -> Result<(), Error>
        ensures { Self.does self.old (Deed.synced path.now (is_ok result)) self.new };

    /// Gives a file another path, and removes what had it.
    fn rename(&mut self, from: &str, to: &str) -> Result<(), Error>
        ensures { Self.does self.old (Deed.renamed from.now to.now (is_ok result)) self.new };

    /// Removes what has this path, if it can.
    fn remove(&mut self, path: &str)
        ensures { Self.does self.old (Deed.removed path.now) self.new };
}
