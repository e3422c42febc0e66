// Capital hexadecimal digits: their characters (`digit`), the table that a digit's value is looked up in (`table`), and
// what it says of pairs of them (`pairs`). For the crates above it alone: its functions ask their caller for places within
// the text.

#![tactic(auto)]

pub mod digit;
pub mod pairs;
pub mod table;
