// Code: Expand, with the children of a stack and the logs that they are appended to.
#![tactic(auto)]

mod children;
pub mod expand;
mod logs;
mod place;
mod run;
mod scan;
