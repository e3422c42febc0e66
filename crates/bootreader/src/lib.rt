// What an FPGA loads from a chip's bytes, or from an image read by itself: the calls on a chip's bytes (`boot`) and
// on an image (`image`).

#![tactic(auto)]

pub mod boot;
pub mod image;
