// How many places a stack has, and the refusals of every call by name: no code but their numbers, only specs/ and proofs/.
#![tactic(auto)]

mod refusal;

pub use refusal::Refusal;

// The places of a stack.
pub const PLACES: usize = 12;
