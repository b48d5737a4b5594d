//! Tests of what plots draw and what is noted on them, in both profiles, by public calls.
#![tactic(auto)]

#[cfg(test)]
mod arcs;
#[cfg(test)]
mod areas_measured;
#[cfg(test)]
mod areas_set;
#[cfg(test)]
mod characters_set;
#[cfg(test)]
mod colours_set;
#[cfg(test)]
mod core_cases;
#[cfg(test)]
mod core_labels;
#[cfg(test)]
mod core_settings;
#[cfg(test)]
mod core_texts;
#[cfg(test)]
mod core_told;
#[cfg(test)]
mod curves_set;
#[cfg(test)]
mod damaged_set;
#[cfg(test)]
mod drawings;
#[cfg(test)]
mod escapes_set;
#[cfg(test)]
mod full_cases;
#[cfg(test)]
mod images_set;
#[cfg(test)]
mod inks_set;
#[cfg(test)]
mod label_texts_set;
#[cfg(test)]
mod labels_set;
#[cfg(test)]
mod limits;
#[cfg(test)]
mod line_types_set;
#[cfg(test)]
mod margins_set;
#[cfg(test)]
mod marks_set;
#[cfg(test)]
mod moved_characters;
#[cfg(test)]
mod notes_and_sheets;
#[cfg(test)]
mod pens;
#[cfg(test)]
mod pens_set;
#[cfg(test)]
mod polygons_set;
#[cfg(test)]
mod widths_set;
