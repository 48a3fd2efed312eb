// Code: Build the whole table.
#![tactic(auto)]

mod advance;
pub mod build;
mod choose;
mod part;
mod way;
