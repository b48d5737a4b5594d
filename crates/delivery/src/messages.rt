//! What is said if an output cannot be written.
ghost use Rattle.std.specs.Prelude.{◌≡◌, ◌<◌, ◌++◌, Some, codes};
ghost use Rattle.delivery.specs.Deliveries.{SaysFirst, SaysOnce};
ghost use Rattle.delivery.specs.Messages.{about_text};

use crate::about::About;
use crate::desk::Desk;
use crate::sheets::Refusal;
use std::fmt::{Display, Formatter, Result, Write};
use std::io::{Error, ErrorKind};

/// The exit status if a file cannot be opened or written.
pub const DEVICE: u8 = 3;

/// The exit status if memory is refused.
pub const MEMORY: u8 = 4;

// That an output cannot be written, and why.
#[derive(Clone, Copy)]
struct CannotWrite<'a, A: Display, R: Display> {
    about: &'a A,
    path: &'a str,
    reason: &'a R,
}

impl<A: Display, R: Display> Display for CannotWrite<'_, A, R> {
    fn fmt<W: Write>(&self, f: &mut Formatter<W>) -> Result {
        let (about, path, reason) = (self.about, self.path, self.reason);
        write!(f, "{about}cannot write {path}: {reason}")
    }
}

// Why a file cannot be written, by the error of the system.
#[derive(Clone, Copy)]
struct Reason<'a> {
    error: &'a Error,
}

impl Display for Reason<'_> {
    fn fmt<W: Write>(&self, f: &mut Formatter<W>) -> Result {
        match self.error.kind() {
            ErrorKind::NotFound => write!(f, "no such folder"),
            ErrorKind::PermissionDenied => write!(f, "permission denied"),
            _ => write!(f, "{}", self.error),
        }
    }
}

/// Says that a file cannot be written, and why, by the error of the system. The exit status is that of a device that failed.
pub fn refuse_write<D: Desk, A: Display>(desk: &mut D, about: &A, path: &str, error: &Error) -> u8
    ensures says { SaysOnce D.does desk.old result desk.new }
    ensures status { result ≡ DEVICE }
{
    cannot_write(desk, about, path, &Reason { error })
}

/// Says that a file cannot be written, for any reason.
pub fn cannot_write<D: Desk, A: Display, R: Display>(
    desk: &mut D,
    about: &A,
    path: &str,
    reason: &R,
) -> u8
    ensures says { SaysOnce D.does desk.old result desk.new }
    ensures status { result ≡ DEVICE }
{
    let message = CannotWrite {
        about,
        path,
        reason,
    };
    desk.refuse(DEVICE, &message);
    DEVICE
}

// That memory is refused.
#[derive(Clone, Copy)]
struct OutOfMemory<'a, A: Display> {
    about: &'a A,
}

impl<A: Display> Display for OutOfMemory<'_, A> {
    fn fmt<W: Write>(&self, f: &mut Formatter<W>) -> Result {
        let about = self.about;
        write!(f, "{about}out of memory")
    }
}

/// Says that memory is refused.
pub fn refuse_memory<D: Desk, A: Display>(desk: &mut D, about: &A) -> u8
    ensures says { SaysOnce D.does desk.old result desk.new }
    ensures status { result ≡ MEMORY }
{
    desk.refuse(MEMORY, &OutOfMemory { about });
    MEMORY
}

/// Says that a file is not written, since it is a plot.
pub fn refuse_plot<D: Desk, A: Display>(
    desk: &mut D,
    about: &A,
    are_several: bool,
    path: &str,
) -> u8
    ensures says { SaysOnce D.does desk.old result desk.new }
    ensures status { result ≡ DEVICE }
{
    let reason = if are_several {
        "it is one of the plots"
    } else {
        "it is the plot"
    };
    cannot_write(desk, about, path, &reason)
}

// That a plot cannot be opened, and why, if that is to be said.
#[derive(Clone, Copy)]
struct CannotOpen<'a> {
    path: &'a str,
    error: Option<&'a Error>,
}

impl Display for CannotOpen<'_> {
    fn fmt<W: Write>(&self, f: &mut Formatter<W>) -> Result {
        let path = self.path;
        match self.error {
            Some(error) => {
                let reason = WhyUnread { error };
                write!(f, "cannot open {path}: {reason}")
            }
            None => write!(f, "cannot open {path}"),
        }
    }
}

// Why a plot cannot be opened, by the error of the system.
#[derive(Clone, Copy)]
struct WhyUnread<'a> {
    error: &'a Error,
}

impl Display for WhyUnread<'_> {
    fn fmt<W: Write>(&self, f: &mut Formatter<W>) -> Result {
        match self.error.kind() {
            ErrorKind::NotFound => write!(f, "no such file or folder"),
            ErrorKind::PermissionDenied => write!(f, "permission denied"),
            _ => write!(f, "{}", self.error),
        }
    }
}

/// How it is said why a plot cannot be opened.
#[derive(Clone, Copy, PartialEq, Eq)]
pub enum Reasons {
    /// In the message itself, and of a folder that it is one.
    InMessage,
    /// In a second line.
    Below,
    /// Not at all.
    Unsaid,
}

/// Says that a plot cannot be opened. A reason in a second line is a remark.
pub fn refuse_open<D: Desk>(desk: &mut D, reasons: Reasons, path: &str, error: &Error) -> u8
    ensures says { SaysFirst D.does desk.old result desk.new }
    ensures status { result ≡ DEVICE }
{
    match reasons {
        Reasons::InMessage => {
            let error = Some(error);
            desk.refuse(DEVICE, &CannotOpen { path, error });
        }
        Reasons::Below => {
            desk.refuse(DEVICE, &CannotOpen { path, error: None });
            desk.remark(&WhyUnread { error });
        }
        Reasons::Unsaid => desk.refuse(DEVICE, &CannotOpen { path, error: None }),
    }
    DEVICE
}

// That a plot is a folder.
#[derive(Clone, Copy)]
struct IsFolder<'a> {
    path: &'a str,
}

impl Display for IsFolder<'_> {
    ghost output = { λ it. Some (codes "cannot open " ++ it.path.now ++ codes ": it is a folder") };

    fn fmt<W: Write>(&self, f: &mut Formatter<W>) -> Result {
        let path = self.path;
        write!(f, "cannot open {path}: it is a folder")
    }
}

/// Says that a plot is a folder.
pub fn refuse_folder<D: Desk>(desk: &mut D, path: &str) -> u8
    ensures says { SaysOnce D.does desk.old result desk.new }
    ensures status { result ≡ DEVICE }
{
    desk.refuse(DEVICE, &IsFolder { path });
    DEVICE
}

// What is said of a path that ends with no name, such as `..`, which is a folder's.
#[derive(Clone, Copy)]
struct HasNoName<'a> {
    about: About<'a>,
}

impl Display for HasNoName<'_> {
    ghost output = { λ it. Some (about_text it.about ++ codes "read failed") };

    fn fmt<W: Write>(&self, f: &mut Formatter<W>) -> Result {
        let about = self.about;
        write!(f, "{about}read failed")
    }
}

/// Why an output has no path.
#[derive(Clone, Copy, PartialEq, Eq)]
pub enum NoPath {
    /// The path of the plot ends with no name.
    NoName,
    /// Memory is refused.
    Memory,
}

/// Says why an output has no path.
pub fn refuse_path<D: Desk>(desk: &mut D, about: About<'_>, why: NoPath) -> u8
    ensures says { SaysOnce D.does desk.old result desk.new }
    ensures status { 0 < result }
{
    match why {
        NoPath::NoName => {
            desk.refuse(DEVICE, &HasNoName { about });
            DEVICE
        }
        NoPath::Memory => refuse_memory(desk, &about),
    }
}

// A refusal of a plot.
#[derive(Clone, Copy)]
struct Refused<'a, R: Refusal> {
    about: About<'a>,
    refusal: &'a R,
}

impl<R: Refusal> Display for Refused<'_, R> {
    fn fmt<W: Write>(&self, f: &mut Formatter<W>) -> Result {
        let (about, refusal) = (self.about, self.refusal);
        write!(f, "{about}{refusal}")
    }
}

/// Says why a plot is not drawn.
pub fn refuse_drawing<D: Desk, R: Refusal>(desk: &mut D, about: About<'_>, refusal: &R) -> u8
    ensures says { SaysOnce D.does desk.old result desk.new }
    ensures status { 0 < result }
{
    let status = refusal.status();
    desk.refuse(status, &Refused { about, refusal });
    status
}
