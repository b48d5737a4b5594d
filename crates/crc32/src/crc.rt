//! The checksum of bytes that come in pieces.
ghost use Rattle.std.specs.Prelude.{◌≡◌, ◌+◌, ◌*◌, ◌%◌, ◌<◌, List, ℕ, [], ◌++◌, length, bit_xor};
ghost use Rattle.crc32.specs.Crc.{times_power, crc32, remainder as after};
ghost use Rattle.crc32.specs.Pieces.{IsCrcOf};

use crate::table::TABLE;

/// The checksum of the bytes so far.
#[derive(Clone, Copy)]
pub struct Crc {
    remainder: u32,
}

impl Crc {
    /// That of no bytes.
    pub fn new() -> Self
        ensures { IsCrcOf result [] }
    {
        Crc {
            remainder: u32::MAX,
        }
    }

    /// Takes the next bytes.
    pub fn add(&mut self, bytes: &[u8])
        ensures { (before : List ℕ) → IsCrcOf self.old before → IsCrcOf self.new (before ++ bytes.now) }
    {
        let whole = bytes.len() / 8 * 8;
        let remainder = after_eights(self.remainder, &bytes[..whole]);
        self.remainder = after_bytes(remainder, &bytes[whole..]);
    }

    /// The checksum.
    pub fn value(&self) -> u32
        ensures { (bytes : List ℕ) → IsCrcOf self.now bytes → result ≡ crc32 bytes }
    {
        self.remainder ^ u32::MAX
    }
}

/// The checksum of bytes.
pub fn crc_of(bytes: &[u8]) -> u32
    ensures { result ≡ crc32 bytes.now }
{
    let mut crc = Crc::new();
    crc.add(bytes);
    crc.value()
}

// The remainder after these bytes, which are a multiple of eight.
fn after_eights(remainder: u32, bytes: &[u8]) -> u32
    requires { length bytes.now % 8 ≡ 0 }
    ensures { result ≡ after remainder bytes.now }
{
    let mut result = remainder;
    let mut at = 0;
    while at < bytes.len() {
        result = after_eight(result, &bytes[at..at + 8]);
        at += 8;
    }
    result
}

// The remainder after these bytes.
fn after_bytes(remainder: u32, bytes: &[u8]) -> u32
    ensures { result ≡ after remainder bytes.now }
{
    let mut result = remainder;
    for byte in bytes {
        result = after_byte(result, *byte);
    }
    result
}

// The remainder after one byte more.
#[inline(always)]
fn after_byte(remainder: u32, byte: u8) -> u32
    ensures { result ≡ times_power 8 (bit_xor remainder byte) }
{
    let sum = remainder ^ byte as u32;
    TABLE[(sum % 256) as usize] ^ (sum >> 8)
}

// The remainder after eight bytes more. The division is linear, so each byte is divided by itself: the
// first four with a byte of the remainder each.
#[inline(always)]
fn after_eight(remainder: u32, bytes: &[u8]) -> u32
    requires { length bytes.now ≡ 8 }
    ensures { result ≡ after remainder bytes.now }
{
    let low = remainder.to_le_bytes();
    entry(7, low[0] ^ bytes[0])
        ^ entry(6, low[1] ^ bytes[1])
        ^ entry(5, low[2] ^ bytes[2])
        ^ entry(4, low[3] ^ bytes[3])
        ^ entry(3, bytes[4])
        ^ entry(2, bytes[5])
        ^ entry(1, bytes[6])
        ^ entry(0, bytes[7])
}

// The remainder of a byte that so many bytes follow.
#[inline(always)]
fn entry(following: usize, byte: u8) -> u32
    requires { following < 8 }
    ensures { result ≡ times_power (8 * (following + 1)) byte }
{
    TABLE[256 * following + byte as usize]
}
