//! Tests of command lines, and of what a run does with files, by public calls.
#![tactic(auto)]

#[cfg(test)]
mod carousels;
#[cfg(test)]
mod characters;
#[cfg(test)]
mod choices;
#[cfg(test)]
mod claims;
#[cfg(test)]
mod delivered_folders;
#[cfg(test)]
mod delivered_lines;
#[cfg(test)]
mod delivered_outputs;
#[cfg(test)]
mod delivered_runs;
#[cfg(test)]
mod delivered_work;
#[cfg(test)]
mod drawings;
#[cfg(test)]
mod endings;
#[cfg(test)]
mod file_names;
#[cfg(test)]
mod label_choices;
#[cfg(test)]
mod line_cases;
#[cfg(test)]
mod line_smoothing;
#[cfg(test)]
mod messages;
#[cfg(test)]
mod options;
#[cfg(test)]
mod outputs;
#[cfg(test)]
mod papers;
#[cfg(test)]
mod pens;
#[cfg(test)]
mod readings;
#[cfg(test)]
mod sizes;
#[cfg(test)]
mod strips;
#[cfg(test)]
mod turns;
#[cfg(test)]
mod vectors;
#[cfg(test)]
mod work_choices;
