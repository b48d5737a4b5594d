//! Texts on their way to a sink, and numbers in them.
#![tactic(auto)]

mod digits;
mod fractions;
mod text;

pub use digits::hex_digit;
pub use fractions::Fraction;
pub use text::Text;
