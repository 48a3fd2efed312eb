// Code: Blank, Settle, Look and Load.
#![tactic(auto)]

pub mod blank;
pub mod load;
pub mod look;
pub mod settle;
