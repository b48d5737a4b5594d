//! A reader and a writer that give and take a part a call, count their calls, or fail.
ghost use Rattle.std.specs.Prelude.{◌≤◌, length};

use std::alloc::Global;
use std::io::{Error, ErrorKind, Read, Write};

/// Gives the bytes of a plot, and then semicolons.
#[derive(Drop)]
pub struct Reader<'a> {
    /// The bytes that are left before the semicolons.
    pub rest: &'a [u8],
    /// How many semicolons are left.
    pub semicolons: usize,
    /// How many bytes a call gives at most.
    pub piece: usize,
    /// How many more bytes it gives before each call fails.
    pub room: usize,
    /// Which call fails, counted from 1; later ones do not.
    pub failing_call: u32,
    pub kind: ErrorKind,
    pub calls: u32,
    /// The greatest number of bytes that it was asked for at once.
    pub most_asked: usize,
}

impl<'a> Reader<'a> {
    /// One that gives as many bytes as it is asked for, no semicolons of its own, and does not fail.
    pub fn new(plot: &'a [u8]) -> Reader<'a> {
        Reader {
            rest: plot,
            semicolons: 0,
            piece: usize::MAX,
            room: usize::MAX,
            failing_call: 0,
            kind: ErrorKind::Other,
            calls: 0,
            most_asked: 0,
        }
    }

    // Fills the front of the buffer with the next bytes before the semicolons.
    fn give_rest(&mut self, buf: &mut [u8]) -> usize
        ensures { result ≤ length buf.old }
    {
        let n = self.rest.len().min(buf.len());
        buf[..n].copy_from_slice(&self.rest[..n]);
        self.rest = &self.rest[n..];
        n
    }

    // Fills the front of the buffer with semicolons.
    fn give_semicolons(&mut self, buf: &mut [u8]) -> usize
        ensures { result ≤ length buf.old }
    {
        let n = self.semicolons.min(buf.len());
        for byte in buf[..n].iter_mut() {
            *byte = b';';
        }
        self.semicolons -= n;
        n
    }
}

impl<'a> Read for Reader<'a> {
    fn read(&mut self, buf: &mut [u8]) -> std::io::Result<usize> {
        self.calls = self.calls.wrapping_add(1);
        self.most_asked = self.most_asked.max(buf.len());
        if self.calls == self.failing_call || self.room == 0 {
            return Err(Error::from(self.kind));
        }
        let most = buf.len().min(self.piece).min(self.room);
        let n = if self.rest.is_empty() {
            self.give_semicolons(&mut buf[..most])
        } else {
            self.give_rest(&mut buf[..most])
        };
        self.room = self.room.saturating_sub(n);
        Ok(n)
    }
}

/// Takes bytes.
#[derive(Drop)]
pub struct Writer {
    /// The bytes that it took.
    pub bytes: Vec<u8>,
    /// How many bytes a call takes at most.
    pub piece: usize,
    /// How many more bytes it takes before each call fails.
    pub room: usize,
    /// Whether a call that fails takes nothing, and is no error.
    pub takes_nothing: bool,
    /// Which call fails, counted from 1; later ones do not.
    pub failing_call: u32,
    pub kind: ErrorKind,
    pub calls: u32,
}

impl Writer {
    /// One that takes all bytes that it is given.
    pub fn new(alloc: Global) -> Writer {
        Writer {
            bytes: Vec::new(alloc),
            piece: usize::MAX,
            room: usize::MAX,
            takes_nothing: false,
            failing_call: 0,
            kind: ErrorKind::Other,
            calls: 0,
        }
    }

    /// One that fails after `room` bytes. By this number it takes one byte a call or up to 50, and
    /// fails by an error or by taking nothing.
    pub fn ending_after(alloc: Global, room: usize) -> Writer {
        Writer {
            piece: if room % 2 == 0 { 1 } else { 50 },
            room,
            takes_nothing: room % 3 == 0,
            ..Writer::new(alloc)
        }
    }
}

impl Write for Writer {
    fn write(&mut self, buf: &[u8]) -> std::io::Result<usize> {
        self.calls = self.calls.wrapping_add(1);
        let taken = buf.len().min(self.piece).min(self.room);
        if self.calls == self.failing_call || taken == 0 && !buf.is_empty() {
            return if self.takes_nothing {
                Ok(0)
            } else {
                Err(Error::from(self.kind))
            };
        }
        if self.bytes.extend_from_slice(&buf[..taken]).is_err() {
            return Err(Error::from(ErrorKind::OutOfMemory));
        }
        self.room -= taken;
        Ok(taken)
    }

    fn flush(&mut self) -> std::io::Result<()> {
        Ok(())
    }
}
