// The chip kind: its fixed numbers and what it puts on a chip (`spi`), and a chip's layout with the questions about
// lengths and places, 1 to 4 (`layout`). In specs/ also a kind as a record (`Kind`), with how its FPGA reads.

#![tactic(auto)]

pub mod layout;
pub mod spi;
