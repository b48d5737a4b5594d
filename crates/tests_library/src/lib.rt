//! Tests of the library's public calls, from a plot's bytes to its picture's.
#![tactic(auto)]

#[cfg(test)]
mod areas_drawn;
#[cfg(test)]
mod broken_off;
#[cfg(test)]
mod carousels;
#[cfg(test)]
mod cases;
#[cfg(test)]
mod colours;
#[cfg(test)]
mod cut_off;
#[cfg(test)]
mod faults;
#[cfg(test)]
mod fine;
#[cfg(test)]
mod gauges;
#[cfg(test)]
mod images_drawn;
#[cfg(test)]
mod large_pictures;
#[cfg(test)]
mod lexed;
#[cfg(test)]
mod pages;
#[cfg(test)]
mod pages_asked;
#[cfg(test)]
mod parts;
#[cfg(test)]
mod pictures;
#[cfg(test)]
mod placements;
#[cfg(test)]
mod pngs;
#[cfg(test)]
mod printer;
#[cfg(test)]
mod random;
#[cfg(test)]
mod readings;
#[cfg(test)]
mod refusals;
#[cfg(test)]
mod reports;
#[cfg(test)]
mod runs;
#[cfg(test)]
mod sheets;
#[cfg(test)]
mod smoothed;
#[cfg(test)]
mod smoothed_rows;
#[cfg(test)]
mod streams;
#[cfg(test)]
mod strips;
#[cfg(test)]
mod turned_pictures;
#[cfg(test)]
mod vector_labels;
#[cfg(test)]
mod vectors;
#[cfg(test)]
mod watched;
