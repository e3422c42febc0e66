// Boot reports as text in a lent buffer: what a chip loads (`boot`), or why a call was refused (`refusal`).

#![tactic(auto)]

pub mod boot;
pub mod refusal;
