// What a chip, an image, a builder and the reader of an image file answered, and the greatest number of writes, as a C
// host gets it: plain structs of numbers, with 0 for what does not apply (`boot`, `build`, `text`, `most`). A run's answers
// are in crate `runresults`. For the crates above it alone.

#![tactic(auto)]

pub mod boot;
pub mod build;
pub mod most;
pub mod text;
