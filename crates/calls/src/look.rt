// Look at a log.
ghost use Rattle.std.specs.Prelude.{true, ◌≡◌, ◌<◌, [], length, MatchResult};
ghost use Rattle.stacks.specs.Refusals.{number, refusal_of};
ghost use Rattle.search.specs.JobState.{is_coherent, segment_count_of, log_length};
ghost use Rattle.search.specs.Look.{look_refusal, look_of};
ghost use Rattle.search.specs.Logs.{pending};

use job::{geometry, refusals};
use search::Job;
use stacks::Refusal;

#[tactic(auto, unfolding(search::specs::Look::look_refusal, stacks::specs::Refusals::number), using(crate::proofs::Rows::call_rows))]
fn check_look(job: &Job, j: u32, words: usize) -> Result<(), Refusal>
    ensures { refusal_of result ≡ look_refusal job.now j words }
{
    refusals::check_call(job, true, j)?;
    if words != geometry::log_length(job.terms) {
        return Err(Refusal::Length);
    }
    Ok(())
}

// What waits in segment j's log: a part of the log area itself, from j × C on.
#[tactic(auto, unfolding(search::specs::Logs::pending, search::specs::Logs::log_part), using(crate::proofs::Looking::part_rows))]
pub(crate) fn waiting_part<'a>(job: &Job, j: u32, log: &'a [u32]) -> &'a [u32]
    requires coherent { is_coherent job.now ≡ true }
    requires inside { j < segment_count_of job.now }
    requires wide { length log.now ≡ log_length job.now }
    ensures { result.now ≡ pending job.now j log.now }
{
    let start = (j as usize) * (job.terms.room as usize);
    &log[start..start + job.waiting[j as usize] as usize]
}

// Look: the waiting part, in the caller's own log area.
#[tactic(auto, using(crate::proofs::Looking::look_rows))]
pub fn look<'a>(job: &Job, j: u32, log: &'a [u32]) -> Result<&'a [u32], Refusal>
    ensures { MatchResult result (λ part. (part.now, 0) ≡ look_of job.now j log.now) (λ r. ([], number r) ≡ look_of job.now j log.now) }
{
    check_look(job, j, log.len())?;
    Ok(waiting_part(job, j, log))
}
