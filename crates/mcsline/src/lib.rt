// One line of a text (`line`): what record it is, or its refusal. For the crate above it alone: its functions
// ask their caller for a place within the text.

#![tactic(auto)]

pub mod line;
