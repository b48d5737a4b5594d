//! A file, whatever its name.

/// What is one for all names of a file: the device that it is on, and its number there.
#[derive(Clone, Copy, PartialEq, Eq, PartialOrd, Ord)]
pub struct FileId {
    pub device: u64,
    pub number: u64,
}
