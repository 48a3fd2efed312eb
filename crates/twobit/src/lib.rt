// Code: two-bit entries in bytes, marking, the geometry of segments, and changed lists.
#![tactic(auto)]

pub mod entry;
pub mod list;
pub mod marking;
pub mod segment;
