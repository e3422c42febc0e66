// The canonical form of MCS text: the one text that an image is written to. There is no code here but its numbers: specs/ has
// the text (`Canonical`), the rule that it keeps (`Rule`) and the test for it (`Test`), and states what is proved of them; the
// code that writes and tests it is in the crates above.

#![tactic(auto)]

// A type 04 record comes before the data at each multiple of this.
pub use mcs::reader::SEGMENT;

// A data record has so many bytes, and the last of an image what is left.
pub const PER_RECORD: usize = 16;

// A line has so many characters beside two for each data byte, if it ends in LF.
pub const AROUND: usize = 12;
