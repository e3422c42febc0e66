// One run of the QuickBoot algorithm on a printer's chip: its state (`state`) and its calls (`run`).

#![tactic(auto)]

pub mod run;
pub mod state;
