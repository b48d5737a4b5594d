//! The files, the streams and the terminal of the system.
ghost use Rattle.std.specs.Prelude.{⊤};

use delivery::{Content, Desk, Found, Kind, Streams, Voice};
use plotraster::{FileId, Terminal};
use std::fmt::Display;
use std::fs::{File, OpenOptions, metadata, remove_file, rename};
use std::io::{Error, IsTerminal, Stdin, Stdout, Write};
use std::os::unix::fs::MetadataExt;

/// The system.
#[derive(Clone, Copy)]
pub(crate) struct Host<'r> {
    pub(crate) rt: &'r HostRuntime,
}

impl Desk for Host<'_> {
    type Plot = File;

    type File = File;

    fn look(&mut self, path: &str) -> Result<Found, Error> {
        let found = metadata(self.rt, path)?;
        let kind = if found.is_dir() {
            Kind::Folder
        } else if found.is_file() {
            Kind::File
        } else {
            Kind::Device
        };
        let id = FileId {
            device: found.dev(),
            number: found.ino(),
        };
        Ok(Found { id, kind })
    }

    fn open(&mut self, path: &str) -> Result<File, Error> {
        File::open(self.rt, path)
    }

    fn create(&mut self, path: &str) -> Result<File, Error> {
        File::create(self.rt, path)
    }

    fn reach(&mut self, path: &str) -> Result<File, Error> {
        OpenOptions::new().write(true).open(self.rt, path)
    }

    fn write<C: Content, W: Write + Drop>(
        &mut self,
        _path: &str,
        content: C,
        to: W,
    ) -> (W, C::Answer) {
        content.write(to)
    }

    fn sync(&mut self, _path: &str, file: File) -> Result<(), Error> {
        file.sync_all()
    }

    fn rename(&mut self, from: &str, to: &str) -> Result<(), Error> {
        rename(self.rt, from, to)
    }

    fn remove(&mut self, path: &str) {
        let _ = remove_file(self.rt, path);
    }
}

impl Voice for Host<'_> {
    ghost does = { λ _ _ _. ⊤ };

    fn refuse<M: Display>(&mut self, _status: u8, message: &M) {
        let _ = eprintln!(self.rt; "plotraster: {message}");
    }

    fn remark<M: Display>(&mut self, message: &M) {
        let _ = eprintln!(self.rt; "plotraster: {message}");
    }
}

impl Streams for Host<'_> {
    type Input = Stdin;

    type Output = Stdout;

    fn input(&self) -> Stdin {
        self.rt.stdin()
    }

    fn output(&self) -> Stdout {
        self.rt.stdout()
    }

    fn has_screen(&self) -> bool {
        self.rt.stdout().is_terminal()
    }
}

impl Terminal for Host<'_> {
    fn is_shown(&self) -> bool {
        self.rt.stderr().is_terminal()
    }

    fn show<M: Display>(&self, message: &M) {
        // The blanks hide the end of a longer line: the last number loses at most four digits.
        let _ = eprint!(self.rt; "\rplotraster: {message}    ");
    }

    fn end(&self) {
        let _ = eprintln!(self.rt);
    }
}
