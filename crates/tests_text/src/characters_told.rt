// Signs as text.
use character_sets::{Encoding, Sets, Sign};
use std::alloc::{AllocError, Global};
use std::process::Abort;
use std::test::Fail;

// The signs of a text, separated by spaces: code points, and the names of ASCII's control characters.
pub fn signs_told(
    alloc: Global,
    encoding: Encoding,
    sets: Sets,
    text: &[u8],
) -> Result<String, AllocError> {
    let mut told = String::new(alloc);
    for sign in encoding.signs(sets, text) {
        if !told.is_empty() {
            told.push_str(" ")?;
        }
        match sign {
            Sign::Printed(code) => write!(told, "{code:04X}")?,
            Sign::CarriageReturn => told.push_str("CR")?,
            Sign::LineFeed => told.push_str("LF")?,
            Sign::Back => told.push_str("BS")?,
            Sign::Tab => told.push_str("HT")?,
        }
    }
    Ok(told)
}

// Fails unless a text has these signs.
pub fn has_signs(
    rt: &impl Abort,
    alloc: Global,
    encoding: Encoding,
    sets: Sets,
    text: &[u8],
    wanted: &str,
) -> Result<(), Fail> {
    let told = signs_told(alloc, encoding, sets, text)?;
    assert_eq!(rt; told.as_str(), wanted);
    Ok(())
}
