// Code of the executed checks: what a build is for and what becomes of a call, as text, and whole builds by the library.
#![tactic(auto)]

pub mod frame;
pub mod whole;
