// Code: Close.
#![tactic(auto)]

pub mod close;
