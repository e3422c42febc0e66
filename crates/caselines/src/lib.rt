// What a line of the cases says: the call that it asks for (`call`), and its numbers and bytes (`parse`). For the crates
// above it alone, which are the parts of a test program: of most functions no more is proved than that they are safe
// and end.

#![tactic(auto)]

pub mod call;
pub mod parse;

// The chip kind that every line is about, by the number that a C host gives it.
pub const SPI: u32 = 0;

// Room for the lines, and for the bytes of one.
// Stays: fixed memory, as every buffer of the project.
pub fn room() -> [u8; 131072] {
    [0; 131072]
}
