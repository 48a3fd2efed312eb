// Code: hexadecimal lines to frames and back, and the report's lines.
#![tactic(auto)]

pub mod frame;
mod hex;
pub mod output;
