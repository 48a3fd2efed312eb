// Blank a segment.
ghost use Rattle.std.specs.Prelude.{true, ◌≡◌, length};
ghost use Rattle.stacks.specs.Refusals.{refusal_of};
ghost use Rattle.search.specs.Blank.{blank_refusal, blanked, blank_of};
ghost use Rattle.search.specs.Entries.{bytes_for};
ghost use Rattle.search.specs.JobState.{is_coherent, stack_count_at};
ghost use Rattle.search.specs.Results.{as_answer};

use job::{geometry, refusals};
use search::Job;
use stacks::Refusal;
use twobit::entry;

#[tactic(auto, unfolding(search::specs::Blank::blank_refusal, stacks::specs::Refusals::number), using(crate::proofs::Rows::segment_rows))]
fn check_blank(job: &Job, j: u32, bytes: usize) -> Result<(), Refusal>
    ensures { refusal_of result ≡ blank_refusal job.now j bytes }
{
    refusals::check_segment(job, job.phase.is_blanking(), j, bytes)?;
    if geometry::stack_count_at(job.terms, j) <= job.passed[j as usize] {
        return Err(Refusal::Passed);
    }
    Ok(())
}

// All entries become 3, and that of the wanted stack, if here, 0.
#[tactic(auto, unfolding(search::specs::Blank::blanked, search::specs::Blank::goal_of), using(crate::proofs::Blanking::wanted_rows))]
fn blank_entries(job: &Job, j: u32, segment: &mut [u8])
    requires coherent { is_coherent job.now ≡ true }
    requires long { length segment.old ≡ bytes_for (stack_count_at job.now j) }
    ensures { segment.new ≡ blanked job.now j }
{
    entry::blank_bytes(segment);
    let terms = job.terms;
    let goal = geometry::panes_of(terms).rank(terms.wanted);
    if goal / terms.size == j {
        entry::set_entry(segment, goal % terms.size, 0);
    }
}

// Blank.
#[tactic(auto, unfolding(search::specs::JobState::progressed), using(crate::proofs::Blanking::blank_rows))]
pub fn blank(job: &mut Job, j: u32, segment: &mut [u8]) -> Result<(), Refusal>
    ensures { (segment.new, as_answer job.new result) ≡ blank_of job.old j segment.old }
{
    check_blank(job, j, segment.len())?;
    blank_entries(job, j, segment);
    job.passed[j as usize] = geometry::stack_count_at(job.terms, j);
    Ok(())
}
