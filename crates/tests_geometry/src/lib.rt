//! Tests of what plots are made of, by public calls: pages, frames, arcs, curves, directions, dashes,
//! characters, sets of characters, fonts, labels and settings, also those of the further instructions.
#![tactic(auto)]

#[cfg(test)]
mod arcs;
#[cfg(test)]
mod cases;
#[cfg(test)]
mod characters_set;
#[cfg(test)]
mod curves_drawn;
#[cfg(test)]
mod dashes;
#[cfg(test)]
mod font;
#[cfg(test)]
mod frames;
#[cfg(test)]
mod full_settings_set;
#[cfg(test)]
mod labels_along;
#[cfg(test)]
mod labels_of_core;
#[cfg(test)]
mod letters_set;
#[cfg(test)]
mod numbers;
#[cfg(test)]
mod pages;
#[cfg(test)]
mod pages_turned;
#[cfg(test)]
mod polygons_filled;
#[cfg(test)]
mod settings;
#[cfg(test)]
mod texts;
#[cfg(test)]
mod vectors;
