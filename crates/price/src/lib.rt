// Code: Price.
#![tactic(auto)]

mod lines;
pub mod price;
mod rounding;
