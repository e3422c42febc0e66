// The writes that packets list: to their end (`reading`), one by its index, or all in one pass by a cursor
// (`cursor`), from data word to data word (`next`).

#![tactic(auto)]

pub mod cursor;
pub mod next;
pub mod reading;
