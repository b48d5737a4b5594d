//! Tests of strokes and areas as rows of pixels, and of the forms and PNG pictures that are made of them, by public calls.
#![tactic(auto)]

#[cfg(test)]
mod areas_counted;
#[cfg(test)]
mod areas_inside;
#[cfg(test)]
mod areas_painted;
#[cfg(test)]
mod checksums;
#[cfg(test)]
mod deflate_streams;
#[cfg(test)]
mod far_strokes;
#[cfg(test)]
mod forms;
#[cfg(test)]
mod gauges;
#[cfg(test)]
mod narrow;
#[cfg(test)]
mod packed;
#[cfg(test)]
mod painted_rows;
#[cfg(test)]
mod pcl;
#[cfg(test)]
mod png_failures;
#[cfg(test)]
mod png_pictures;
#[cfg(test)]
mod png_texts;
#[cfg(test)]
mod random;
#[cfg(test)]
mod stopped;
#[cfg(test)]
mod stream_failures;
#[cfg(test)]
mod strokes;
