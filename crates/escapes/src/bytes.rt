//! Bytes of a text.
ghost use Rattle.std.specs.Prelude.{◌≡◌, ◌≤◌, length, take, drop, slice_index};
ghost use Rattle.std.specs.List.{prefix_len};
ghost use Rattle.std.specs.Char.{is_ascii_digit};
ghost use Rattle.hpgl_text.specs.Numbers.{digits};
ghost use Rattle.escapes.specs.Commands.{is_small, is_large};
ghost use Rattle.escapes.specs.Escapes.{is_group, is_alone};

/// The byte at a place, 0 past the end.
pub fn byte_at(text: &[u8], place: usize) -> u8
    ensures { result ≡ slice_index text.now place }
{
    if place < text.len() { text[place] } else { 0 }
}

/// What follows the first bytes.
pub fn after(text: &[u8], count: usize) -> &[u8]
    ensures { result.now ≡ drop count text.now }
{
    &text[count.min(text.len())..]
}

/// The first bytes.
pub fn before(text: &[u8], count: usize) -> &[u8]
    ensures { result.now ≡ take count text.now }
{
    &text[..count.min(text.len())]
}

// How many digits the text begins with.
fn digit_count(text: &[u8]) -> usize
    ensures value { result ≡ prefix_len is_ascii_digit text.now }
    ensures within { result ≤ length text.now }
{
    text.iter().take_while(|byte| byte.is_ascii_digit()).count()
}

/// The digits that the text begins with.
pub fn first_digits(text: &[u8]) -> &[u8]
    ensures { result.now ≡ digits text.now }
{
    &text[..digit_count(text)]
}

/// Whether another command follows one with this letter.
pub fn is_small_letter(byte: u8) -> bool
    ensures { result ≡ is_small byte }
{
    96 <= byte && byte <= 126
}

/// Whether this letter is that of a last command.
pub fn is_large_letter(byte: u8) -> bool
    ensures { result ≡ is_large byte }
{
    64 <= byte && byte <= 94
}

/// Whether the byte begins a group.
pub fn begins_group(byte: u8) -> bool
    ensures { result ≡ is_group byte }
{
    33 <= byte && byte <= 47 && !(byte == b'%') && !(byte == b'.')
}

/// Whether the byte is an escape of its own.
pub fn is_alone(byte: u8) -> bool
    ensures { result ≡ is_alone byte }
{
    48 <= byte && byte <= 126
}
