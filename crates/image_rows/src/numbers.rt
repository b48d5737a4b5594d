//! Numbers of which more follows in further bytes.
ghost use Rattle.std.specs.Prelude.{◌≡◌, ◌+◌, ◌*◌, ◌≤◌, ◌<◌, length, IfSome, option_map};
ghost use Rattle.image_rows.specs.Changes.{further, number};

/// A number, and the data after it.
#[derive(Clone, Copy)]
pub struct LongNumber<'a> {
    pub value: u128,
    pub rest: &'a [u8],
}

/// A number in a few bits: bytes are added to the greatest that these can hold. Nothing if the data end before it does.
pub fn number<'a>(greatest: u8, bits: u8, input: &'a [u8]) -> Option<LongNumber<'a>>
    ensures value { option_map (λ n. (n.value, n.rest.now)) result ≡ number greatest bits input.now }
    ensures shorter { IfSome result (λ n. length n.rest.now ≤ length input.now) }
    ensures bound { IfSome result (λ n. n.value + 255 * length n.rest.now ≤ 255 + 255 * length input.now) }
{
    if bits == greatest {
        return further(bits, input);
    }
    Some(LongNumber {
        value: bits as u128,
        rest: input,
    })
}

// A number and the bytes that are added to it, up to one that is not 255.
fn further<'a>(bits: u8, input: &'a [u8]) -> Option<LongNumber<'a>>
    ensures value { option_map (λ n. (n.value, n.rest.now)) result ≡ further bits input.now }
    ensures shorter { IfSome result (λ n. length n.rest.now ≤ length input.now) }
    ensures bound { IfSome result (λ n. n.value + 255 * length n.rest.now ≤ 255 + 255 * length input.now) }
{
    let mut value = bits as u128;
    for (at, byte) in input.iter().enumerate() {
        value += *byte as u128;
        if *byte != 255 {
            return Some(LongNumber {
                value,
                rest: &input[at + 1..],
            });
        }
    }
    None
}
