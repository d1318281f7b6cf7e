// Packets of USB 2.0, chapter 8, as bytes: PIDs, tokens, and data packets read and written.
#![tactic(auto)]

pub mod crc;
pub mod data;
pub mod pid;
pub mod token;
