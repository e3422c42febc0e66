// The packet rules: one word as a header, and what a data word does (`header`); what reading words gives
// (`trace`, whose rules are definitions alone).

#![tactic(auto)]

pub mod header;
pub mod trace;
