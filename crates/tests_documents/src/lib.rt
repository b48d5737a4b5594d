//! Tests of SVG, DXF and PDF documents and of reports, by public calls.
#![tactic(auto)]

#[cfg(test)]
mod dxf_documents;
#[cfg(test)]
mod groups;
#[cfg(test)]
mod long_documents;
#[cfg(test)]
mod pdf_areas;
#[cfg(test)]
mod pdf_contents;
#[cfg(test)]
mod pdf_documents;
#[cfg(test)]
mod pdf_sinks;
#[cfg(test)]
mod pdf_strokes;
#[cfg(test)]
mod pdf_texts;
#[cfg(test)]
mod reports;
#[cfg(test)]
mod runs;
#[cfg(test)]
mod sheets;
#[cfg(test)]
mod svg_areas;
#[cfg(test)]
mod svg_documents;
#[cfg(test)]
mod svg_images;
#[cfg(test)]
mod svg_strokes;
#[cfg(test)]
mod titles;
#[cfg(test)]
mod written;
