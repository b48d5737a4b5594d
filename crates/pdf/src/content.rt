//! The content of a page, on its way through an encoder into a document.
ghost use Rattle.std.specs.Prelude.{◌≡◌, ◌+◌, ◌≤◌, [], length};
ghost use Rattle.deflate.specs.declared.sizes.TheConstants.{FULL, PIECE};
ghost use Rattle.pdf.specs.Contained.{Ends, Fills, Holds, IsOpen, Keeps};

use deflate::{PIECE, TextEncoder};
use devices::{Sink, append};
use itoa::{Buffer, Integer};
use pieces::Text;

/// The content of a page as a zlib stream in a document: what is put waits until there is enough of it for the encoder.
#[derive(Drop)]
pub(crate) struct PageContent<'a> {
    encoder: &'a mut TextEncoder,
    piece: [u8; PIECE],
    used: usize,
    size: u64,
}

impl<'a> PageContent<'a> {
    // The start of a stream, of no bytes.
    pub fn new(encoder: &'a mut TextEncoder) -> Self
        ensures encoder { result.encoder.ghost_name ≡ encoder.entry.ghost_name }
        ensures used { result.used ≡ 0 }
        ensures size { result.size ≡ 0 }
        ensures fresh { Holds [] result [] }
    {
        encoder.begin();
        PageContent {
            encoder,
            piece: [0; PIECE],
            used: 0,
            size: 0,
        }
    }

    // Puts these bytes.
    #[inline(always)]
    pub fn put<K: Sink>(&mut self, document: &mut Text<'_, K>, bytes: &[u8])
        requires open { IsOpen K.state document.old self.old }
        ensures fills { Fills K.state document.old document.new self.old self.new bytes.now }
    {
        if bytes.len() > PIECE - self.used {
            self.put_on(document, bytes);
        } else {
            self.keep(bytes);
        }
    }

    // Puts a number in decimal.
    #[inline(always)]
    pub fn put_number<K: Sink, I: Integer>(&mut self, document: &mut Text<'_, K>, number: I)
        requires open { IsOpen K.state document.old self.old }
        ensures fills { Fills K.state document.old document.new self.old self.new (I.text number) }
    {
        let mut digits = Buffer::new();
        self.put(document, digits.format(number).as_bytes());
    }

    // Ends the stream, and returns how many bytes it has, a count that stops at its greatest.
    pub fn finish<K: Sink>(&mut self, document: &mut Text<'_, K>) -> u64
        requires open { IsOpen K.state document.old self.old }
        ensures ends { Ends K.state document.old document.new self.old result }
    {
        self.encode(document);
        self.hand_on(document);
        self.encoder.end();
        let bytes = self.encoder.bytes();
        document.put(bytes);
        self.size.saturating_add(bytes.len() as u64)
    }

    // Puts bytes for which there is room.
    #[inline(always)]
    fn keep(&mut self, bytes: &[u8])
        requires room { self.old.used + length bytes.now ≤ PIECE }
        ensures keeps { Keeps self.old self.new bytes.now }
    {
        self.used = append(&mut self.piece, self.used, bytes);
    }

    // Puts bytes for which there may be no room.
    #[cold]
    fn put_on<K: Sink>(&mut self, document: &mut Text<'_, K>, bytes: &[u8])
        requires open { IsOpen K.state document.old self.old }
        ensures fills { Fills K.state document.old document.new self.old self.new bytes.now }
    {
        for byte in bytes {
            self.make_place(document);
            self.keep(&[*byte]);
        }
    }

    // Makes room for a byte.
    fn make_place<K: Sink>(&mut self, document: &mut Text<'_, K>)
        requires open { IsOpen K.state document.old self.old }
        ensures fills { Fills K.state document.old document.new self.old self.new [] }
        ensures room { self.new.used + 1 ≤ PIECE }
    {
        if self.used == PIECE {
            self.encode(document);
        }
    }

    // Encodes what waits.
    fn encode<K: Sink>(&mut self, document: &mut Text<'_, K>)
        requires open { IsOpen K.state document.old self.old }
        ensures fills { Fills K.state document.old document.new self.old self.new [] }
        ensures empty { self.new.used ≡ 0 }
    {
        self.make_room(document);
        self.take();
    }

    // Makes room in the encoder.
    fn make_room<K: Sink>(&mut self, document: &mut Text<'_, K>)
        requires open { IsOpen K.state document.old self.old }
        ensures fills { Fills K.state document.old document.new self.old self.new [] }
        ensures room { self.new.encoder.now.block.buffer.used ≤ FULL }
    {
        if self.encoder.is_full() {
            self.hand_on(document);
        }
    }

    // Encodes what waits, for which the encoder has room.
    fn take(&mut self)
        requires within { self.old.used ≤ PIECE }
        requires room { self.old.encoder.now.block.buffer.used ≤ FULL }
        ensures keeps { Keeps self.old self.new [] }
        ensures empty { self.new.used ≡ 0 }
    {
        self.encoder.take(&self.piece[..self.used]);
        self.used = 0;
    }

    // Puts the bytes of the stream that are ready into the document.
    fn hand_on<K: Sink>(&mut self, document: &mut Text<'_, K>)
        requires open { IsOpen K.state document.old self.old }
        ensures fills { Fills K.state document.old document.new self.old self.new [] }
        ensures room { self.new.encoder.now.block.buffer.used ≡ 0 }
        ensures kept { self.new.used ≡ self.old.used }
    {
        let bytes = self.encoder.bytes();
        document.put(bytes);
        self.size = self.size.saturating_add(bytes.len() as u64);
        self.encoder.let_go();
    }
}
