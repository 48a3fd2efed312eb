// Code: what a report says, as text, and how it reads its input character by character.
#![tactic(auto)]

mod first;
pub mod input;
mod later;
mod lent;
