// What each function of hokrund promises, stated once more above it: a function here calls it and states its outcome by the operation's
// own definition, and what stands beside a refusal. One that states less is still proved in its own crate, and has no proof here. The archive's
// exports, in hokrund_c, have its clauses word for word.
#![tactic(auto)]

pub mod job_calls;
pub mod stack_calls;
pub mod table_calls;
pub mod version;
