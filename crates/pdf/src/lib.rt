//! PDF: the strokes and areas of sheets as a document of pages, with a layer for each pen, and the texts of labels.
#![tactic(auto)]

mod content;
mod counts;
mod document;
mod fonts;
mod front;
pub mod laws;
mod layers;
mod letters;
mod matrices;
mod numbers;
mod objects;
mod pages;
mod path;
mod paths;
mod pens;
mod rows;
mod sheet;
mod steps;
mod stream;
mod table;
mod texts;
mod title;
mod units;

pub use counts::{MOST_LETTERS, has_few_letters};
pub use document::{room_for, write_pdf};
