// A run's state and answers as a C host gets them: plain structs of numbers, with 0 for what does not apply (`run`), how
// its orders are counted (`counts`), and what a run that was cut came to (`cut`). For the crates above it alone.

#![tactic(auto)]

pub mod counts;
pub mod cut;
pub mod run;
