// Code: Read an entry, and Plan.
#![tactic(auto)]

pub mod plan;
pub mod question;
pub mod read;
mod route;
pub mod turns;
