// Code: the kinds, sets of group sizes and of panes as bits, rank, unrank, turns and moves; and the three open operations on stacks.
#![tactic(auto)]

mod factorial;
pub mod groups;
pub mod kind;
pub mod moves;
pub mod numbering;
pub mod operations;
pub mod panes;
mod place;
mod set;
pub mod sizes;
mod turning;
pub mod valid;
