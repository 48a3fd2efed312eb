// Code: Sweep, with the search of a stack for a changed child.
#![tactic(auto)]

mod reach;
mod run;
pub mod sweep;
