// The archive for C: each export of include/hokrund.h calls the function of its name in crate hokrund, and states its clauses again.
#![tactic(auto)]

pub mod job_calls;
pub mod stack_calls;
pub mod table_calls;
pub mod version;
