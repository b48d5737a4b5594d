//! Tests of what is read: items of plots, characters and their letters, and lists of pens, by public calls.
#![tactic(auto)]

#[cfg(test)]
mod carousels;
#[cfg(test)]
mod character_numbers;
#[cfg(test)]
mod characters_told;
#[cfg(test)]
mod code_points;
#[cfg(test)]
mod colours;
#[cfg(test)]
mod dots_of_images;
#[cfg(test)]
mod escapes_cut;
#[cfg(test)]
mod full_cuts;
#[cfg(test)]
mod further;
#[cfg(test)]
mod images_made;
#[cfg(test)]
mod images_painted;
#[cfg(test)]
mod images_pictured;
#[cfg(test)]
mod item_cases;
#[cfg(test)]
mod items;
#[cfg(test)]
mod letter_boxes;
#[cfg(test)]
mod letter_rows;
#[cfg(test)]
mod letter_strokes;
#[cfg(test)]
mod pen_cases;
#[cfg(test)]
mod real_plots;
#[cfg(test)]
mod requests_told;
#[cfg(test)]
mod rows_of_images;
#[cfg(test)]
mod shifts;
#[cfg(test)]
mod texts;
#[cfg(test)]
mod utf8;
#[cfg(test)]
mod widths;
