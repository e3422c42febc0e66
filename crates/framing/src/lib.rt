// Bytes to words: where the sync word is (`search`), and the 32-bit words after it (`words`). For the crates
// above it alone: its functions ask their caller for a place within the bytes.

#![tactic(auto)]

pub mod search;
pub mod words;
