// Code: whether a job is coherent, its geometry, Begin, and the refusals that the calls on a segment share.
#![tactic(auto)]

pub mod begin;
pub mod coherence;
pub mod geometry;
pub mod refusals;
