// Records of MCS text, written into a buffer: one record's line (`record`), and the lines of a part of an image (`part`).
// For the crates above it alone: its functions ask their caller for a buffer with room for what they write.

#![tactic(auto)]

pub mod part;
pub mod record;
