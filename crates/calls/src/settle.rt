// Settle a segment: apply its log.
ghost use Rattle.std.specs.Prelude.{◌≡◌, ltb};
ghost use Rattle.base.specs.Words.{all};
ghost use Rattle.stacks.specs.Refusals.{refusal_of};
ghost use Rattle.calls.specs.Lent.{OffsetsFit};
ghost use Rattle.search.specs.Logs.{indexes_of};
ghost use Rattle.search.specs.Marks.{mark_all};
ghost use Rattle.search.specs.Results.{as_answer};
ghost use Rattle.search.specs.Settle.{settle_refusal, settle_of};
ghost use Rattle.twobit.specs.Mark.{marks_of};

use crate::look;
use job::{geometry, refusals};
use search::{Found, Job, Terms};
use stacks::Refusal;
use twobit::{entry, marking};

fn offsets_fit(offsets: &[u32], stacks: u32) -> bool
    ensures { result ≡ all (λ i. ltb i stacks) offsets.now }
{
    offsets.iter().all(|&i| i < stacks)
}

#[tactic(auto, unfolding(search::specs::Settle::settle_refusal, stacks::specs::Refusals::number), using(crate::proofs::Rows::level_rows))]
fn check_settle(job: &Job, j: u32, bytes: usize, log: &[u32]) -> Result<(), Refusal>
    ensures { refusal_of result ≡ settle_refusal job.now j bytes log.now }
{
    refusals::check_level(job, j, bytes, log.len())?;
    let offsets = look::waiting_part(job, j, log);
    if !offsets_fit(offsets, geometry::stack_count_at(job.terms, j)) {
        return Err(Refusal::Offset);
    }
    Ok(())
}

// Each unseen stack of segment j at one of the offsets, in order, gets the label and is counted.
fn mark_all(
    segment: &mut [u8],
    terms: Terms,
    j: u32,
    offsets: &[u32],
    label: u8,
    mut found: Found,
) -> Found
    requires { OffsetsFit terms.size j label offsets.now found segment.old }
    ensures { marks_of segment.new result ≡ mark_all terms label (indexes_of terms.size j offsets.now) (marks_of segment.old found) }
{
    let base = j * terms.size;
    for &offset in offsets {
        found = marking::mark_stack(segment, base + offset, offset, label, found);
    }
    found
}

// Settle.
#[tactic(auto, using(crate::proofs::Settling::settle_rows))]
pub fn settle(job: &mut Job, j: u32, segment: &mut [u8], log: &[u32]) -> Result<(), Refusal>
    ensures { (segment.new, as_answer job.new result) ≡ settle_of job.old j segment.old log.now }
{
    check_settle(job, j, segment.len(), log)?;
    let level = job.phase.level();
    let label = entry::next_entry((level - 1) % 3);
    let offsets = look::waiting_part(job, j, log);
    let found = marking::found_at(&job.counts, level);
    let marked = mark_all(segment, job.terms, j, offsets, label, found);
    job.waiting[j as usize] = 0;
    marking::put_found(&mut job.counts, level, marked);
    Ok(())
}
