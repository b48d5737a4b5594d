//! A desk that writes down what is done, and at which one kind of deed fails.
ghost use Rattle.std.specs.Prelude.{⊤};

use delivery::{Content, Desk, Found, Kind, Voice};
use output_files::FileId;
use std::alloc::Global;
use std::fmt::Display;
use std::io::{Error, ErrorKind, Write};

/// The desk.
#[derive(Drop)]
pub struct Recorder {
    pub alloc: Global,
    /// What was done, a line each.
    pub log: String,
    /// The name of the deeds that fail.
    pub fails: &'static str,
    /// The only path that has a folder.
    pub folder: &'static str,
    /// The only path that has a file: file 7 of device 1.
    pub file: &'static str,
    /// Another path of that file.
    pub link: &'static str,
    /// What that file is.
    pub kind: Kind,
    /// What each plot reads.
    pub plot: &'static [u8],
}

impl Recorder {
    /// A desk where deeds of this name fail, and with a folder `d`.
    pub fn new(alloc: Global, fails: &'static str) -> Recorder {
        Recorder {
            alloc,
            log: String::new(alloc),
            fails,
            folder: "d",
            file: "",
            link: "",
            kind: Kind::File,
            plot: b"plot",
        }
    }

    fn note(&mut self, deed: &str, path: &str) -> Result<(), Error> {
        let _ = self.log.push_str(deed);
        let _ = self.log.push_str(" ");
        let _ = self.log.push_str(path);
        let _ = self.log.push_str("\n");
        if deed == self.fails {
            Err(Error::from(ErrorKind::PermissionDenied))
        } else {
            Ok(())
        }
    }

    fn note_said<M: Display>(&mut self, deed: &str, message: &M) {
        let _ = match format!(in self.alloc; "{message}") {
            Ok(said) => self.note(deed, said.as_str()),
            Err(_) => self.note(deed, "?"),
        };
    }
}

impl Desk for Recorder {
    type Plot = &'static [u8];

    type File = Vec<u8>;

    fn look(&mut self, path: &str) -> Result<Found, Error> {
        let (kind, number) = if path == self.file || path == self.link {
            (self.kind, 7)
        } else if path == self.folder {
            (Kind::Folder, 2)
        } else {
            return Err(Error::from(ErrorKind::NotFound));
        };
        let id = FileId { device: 1, number };
        Ok(Found { id, kind })
    }

    fn open(&mut self, path: &str) -> Result<&'static [u8], Error> {
        self.note("open", path)?;
        Ok(self.plot)
    }

    fn create(&mut self, path: &str) -> Result<Vec<u8>, Error> {
        self.note("create", path)?;
        Ok(Vec::new(self.alloc))
    }

    fn reach(&mut self, path: &str) -> Result<Vec<u8>, Error> {
        self.note("reach", path)?;
        Ok(Vec::new(self.alloc))
    }

    fn write<C: Content, W: Write + Drop>(
        &mut self,
        path: &str,
        content: C,
        to: W,
    ) -> (W, C::Answer) {
        let _ = self.note("write", path);
        content.write(to)
    }

    fn sync(&mut self, path: &str, _file: Vec<u8>) -> Result<(), Error> {
        self.note("sync", path)
    }

    fn rename(&mut self, _from: &str, to: &str) -> Result<(), Error> {
        self.note("rename", to)
    }

    fn remove(&mut self, path: &str) {
        let _ = self.note("remove", path);
    }
}

impl Voice for Recorder {
    ghost does = { λ _ _ _. ⊤ };

    fn refuse<M: Display>(&mut self, _status: u8, message: &M) {
        self.note_said("refuse", message);
    }

    fn remark<M: Display>(&mut self, message: &M) {
        self.note_said("remark", message);
    }
}
