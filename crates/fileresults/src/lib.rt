// What was answered of a file's form (`form`), of a chip's switch (`switch`) and update place (`place`), of a cursor over
// the writes (`list`) and of a report (`reporting`), as a C host gets it: plain structs of numbers, with 0 for what does
// not apply. For the crates above it alone.

#![tactic(auto)]

pub mod form;
pub mod list;
pub mod place;
pub mod reporting;
pub mod switch;
