// How the code steps through packets, whole ones at a time where it can. For the crate above it alone: its
// functions ask their caller for a scanner that goes on.

#![tactic(auto)]

pub mod scan;
