//! CRC-32, the checksum of PNG's chunks, gzip and Ethernet.
#![tactic(auto)]

mod crc;
mod table;

pub use crc::{Crc, crc_of};
