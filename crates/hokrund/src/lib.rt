// The operations for C, the papers' and Build the whole table: each wraps the operation of its name, and include/hokrund.h declares it.
// No enum, no array by value and no reference as a result passes to C: the job travels as a flat mirror, a stack in a struct, and the
// part that Look hands back as start and length. A tariff holds none of these and travels as it is.
#![tactic(auto)]

pub mod job_calls;
pub mod stack_calls;
pub mod table_calls;
pub mod version;
