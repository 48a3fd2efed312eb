// The refusals that the calls on a segment share: each row goes on from the one above it.
ghost use Rattle.std.specs.Prelude.{◌≡◌};
ghost use Rattle.search.specs.Refusals.{call_refusal, segment_refusal, level_refusal};
ghost use Rattle.stacks.specs.Refusals.{refusal_of};

use crate::{coherence, geometry};
use search::Job;
use stacks::Refusal;
use twobit::segment;

// 7, 8 where the call has no part in the job's phase, 9.
#[tactic(auto, unfolding(search::specs::Refusals::call_refusal, stacks::specs::Refusals::number), using(crate::proofs::Bounds::coherent_rows))]
pub fn check_call(job: &Job, in_phase: bool, j: u32) -> Result<(), Refusal>
    ensures { refusal_of result ≡ call_refusal in_phase job.now j 0 }
{
    if !coherence::is_coherent(job) {
        return Err(Refusal::Incoherent);
    }
    let segments = geometry::segment_count_of(job.terms);
    if !in_phase {
        return Err(Refusal::Phase);
    }
    if segments <= j {
        return Err(Refusal::Segment);
    }
    Ok(())
}

// Those, then 10 for the segment.
#[tactic(auto, unfolding(stacks::specs::Refusals::number), using(crate::proofs::Refusing::segment_rows))]
pub fn check_segment(job: &Job, in_phase: bool, j: u32, bytes: usize) -> Result<(), Refusal>
    ensures { refusal_of result ≡ segment_refusal in_phase job.now j bytes 0 }
{
    check_call(job, in_phase, j)?;
    let stacks = geometry::stack_count_at(job.terms, j);
    if bytes != segment::bytes_for(stacks) as usize {
        return Err(Refusal::Length);
    }
    Ok(())
}

// Those of a call of a forward level, then 10 for the log area.
#[tactic(auto, unfolding(stacks::specs::Refusals::number), using(crate::proofs::Refusing::level_rows))]
pub fn check_level(job: &Job, j: u32, bytes: usize, words: usize) -> Result<(), Refusal>
    ensures { refusal_of result ≡ level_refusal job.now j bytes words 0 }
{
    check_segment(job, job.in_forward(), j, bytes)?;
    if words != geometry::log_length(job.terms) {
        return Err(Refusal::Length);
    }
    Ok(())
}
