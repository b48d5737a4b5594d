//! A text on its way to a sink.
ghost use Rattle.std.specs.Prelude.{◌≡◌, ◌+◌, ◌-◌, ◌^◌, ◌<◌, ◌≤◌, [], length};
ghost use Rattle.devices.specs.Sinks.{taken_of};
ghost use Rattle.pieces.specs.Texts.{Finishes, IsNew, IsSound, Puts, count_of, counted};

use devices::{Sink, WriteFault, append, put_all};
use itoa::{Buffer, Integer};

/// How many bytes wait at most.
const ROOM: usize = 32_768;

/// A text on its way to a sink: what is put waits until there is enough of it. After a fault of the sink what is put is
/// counted and forgotten, and `finish` tells of the fault.
#[derive(Drop)]
pub struct Text<'a, K: Sink> {
    sink: &'a mut K,
    piece: [u8; ROOM],
    used: usize,
    done: u64,
    fault: Option<WriteFault>,
}

impl<'a, K: Sink> Text<'a, K> {
    /// A text of no bytes. Nothing is written yet.
    pub fn new(sink: &'a mut K) -> Text<'a, K>
        requires sound { (K.state sink.old).faults < 2 ^ 64 - 1 }
        ensures same { result.sink.ghost_name ≡ sink.entry.ghost_name }
        ensures sink { result.sink.now ≡ sink.old }
        ensures new { IsNew result }
        ensures sound { IsSound K.state result }
    {
        Text {
            sink,
            piece: [0; ROOM],
            used: 0,
            done: 0,
            fault: None,
        }
    }

    /// Puts these bytes.
    #[inline(always)]
    pub fn put(&mut self, bytes: &[u8])
        requires sound { IsSound K.state self.old }
        ensures puts { Puts K.state self.old self.new bytes.now }
    {
        if bytes.len() > ROOM - self.used {
            self.put_on(bytes);
        } else {
            self.keep(bytes);
        }
    }

    /// Puts a number in decimal.
    #[inline(always)]
    pub fn put_number<I: Integer>(&mut self, number: I)
        requires sound { IsSound K.state self.old }
        ensures puts { Puts K.state self.old self.new (I.text number) }
    {
        let mut digits = Buffer::new();
        self.put(digits.format(number).as_bytes());
    }

    /// How many bytes were put, a count that stops at its greatest.
    pub fn count(&self) -> u64
        ensures { result ≡ count_of self.now }
    {
        self.done.saturating_add(self.used as u64)
    }

    /// Writes what waits, and returns how many bytes were put, a count that stops at its greatest.
    ///
    /// Errors: the fault of the sink, if there was one. It counts the bytes that the sink took, likewise.
    pub fn finish(&mut self) -> Result<u64, WriteFault>
        requires sound { IsSound K.state self.old }
        ensures same { self.new.sink.ghost_name ≡ self.old.sink.ghost_name }
        ensures finishes { Finishes K.state self.old (K.state self.new.sink.now) result }
    {
        self.flush();
        let count = self.count();
        match self.fault {
            None => Ok(count),
            Some(fault) => Err(fault),
        }
    }

    // Puts bytes for which there is room.
    #[inline(always)]
    fn keep(&mut self, bytes: &[u8])
        requires sound { IsSound K.state self.old }
        requires room { self.old.used + length bytes.now ≤ ROOM }
        ensures puts { Puts K.state self.old self.new bytes.now }
    {
        self.used = append(&mut self.piece, self.used, bytes);
    }

    // Puts bytes for which there is no room.
    #[cold]
    fn put_on(&mut self, bytes: &[u8])
        requires sound { IsSound K.state self.old }
        ensures puts { Puts K.state self.old self.new bytes.now }
    {
        self.flush();
        if bytes.len() > ROOM {
            self.hand(bytes);
        } else {
            self.keep(bytes);
        }
    }

    // Writes what waits, unless the sink has failed.
    fn flush(&mut self)
        requires sound { IsSound K.state self.old }
        ensures puts { Puts K.state self.old self.new [] }
        ensures empty { self.new.used ≡ 0 }
    {
        if self.fault.is_none() {
            match put_all(self.sink, &self.piece[..self.used]) {
                Ok(()) => {}
                Err(fault) => self.fault = Some(later(fault, self.done)),
            }
        }
        self.done = self.done.saturating_add(self.used as u64);
        self.used = 0;
    }

    // Writes bytes after all that was put, unless the sink has failed.
    fn hand(&mut self, bytes: &[u8])
        requires sound { IsSound K.state self.old }
        requires empty { self.old.used ≡ 0 }
        ensures puts { Puts K.state self.old self.new bytes.now }
    {
        if self.fault.is_none() {
            match put_all(self.sink, bytes) {
                Ok(()) => {}
                Err(fault) => self.fault = Some(later(fault, self.done)),
            }
        }
        self.done = self.done.saturating_add(bytes.len() as u64);
    }
}

// The same fault after `done` bytes more.
fn later(fault: WriteFault, done: u64) -> WriteFault
    ensures { taken_of result ≡ counted (done + taken_of fault) }
{
    WriteFault::Write {
        bytes: done.saturating_add(fault.bytes()),
    }
}
