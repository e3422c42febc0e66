// The chip: its switch word (`switch`), and where its update area begins, as its segment 1 says (`update_place`). In
// specs/ also which chips are well-formed, what an order may leave on them, and the laws of a chip kind.

#![tactic(auto)]

pub mod switch;
pub mod update_place;
