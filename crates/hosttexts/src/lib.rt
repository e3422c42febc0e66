// The functions that a printer's C host calls for MCS text (include/tealsettle.h), in a library of their own beside
// crates `host`, `hostcounts` and `hostfiles`: reading one (`reading`), writing one and whether one is as it would be written
// (`writing`), and what a host gets of that (`result`).

#![tactic(auto)]

pub mod reading;
pub mod result;
pub mod writing;
