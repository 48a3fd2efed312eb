// Sweep a segment against the loaded one. The job's fields are copied to a Pair, so that no function that runs for a stack or a child takes the
// job.
ghost use Rattle.std.specs.Prelude.{◌&&◌, ◌≡◌, eqb};
ghost use Rattle.search.specs.Changed.{list_bytes};
ghost use Rattle.search.specs.Entries.{bytes_for};
ghost use Rattle.search.specs.Results.{as_answer};
ghost use Rattle.search.specs.Sweep.{sweep_refusal, sweep_of};
ghost use Rattle.search.specs.Terms.{m, begin_refusal};
ghost use Rattle.stacks.specs.Refusals.{refusal_of};

use crate::reach::Pair;
use crate::run;
use job::{geometry, refusals};
use search::{Job, NO_SEGMENT, Terms};
use stacks::Refusal;
use twobit::{entry, list, marking, segment};

// Whether what is lent has the lengths of segment j and of segment b's changed list.
fn lengths_fit(terms: Terms, j: u32, b: u32, bytes: usize, listed: usize) -> bool
    requires { begin_refusal terms ≡ 0 }
    ensures { result ≡ (eqb bytes (bytes_for (m terms j)) && eqb listed (list_bytes (m terms b))) }
{
    let stacks = geometry::stack_count_at(terms, j);
    let bits = geometry::stack_count_at(terms, b);
    bytes == segment::bytes_for(stacks) as usize && listed == list::list_bytes(bits) as usize
}

fn check_sweep(job: &Job, j: u32, bytes: usize, listed: usize) -> Result<(), Refusal>
    ensures { refusal_of result ≡ sweep_refusal job.now j bytes listed }
{
    refusals::check_call(job, job.in_reverse(), j)?;
    if job.loaded == NO_SEGMENT {
        return Err(Refusal::NotLoaded);
    }
    if !lengths_fit(job.terms, j, job.loaded as u32, bytes, listed) {
        return Err(Refusal::Length);
    }
    if (job.swept[job.loaded as usize] >> j) % 2 == 1 {
        return Err(Refusal::Passed);
    }
    Ok(())
}

// Sweep.
pub fn sweep(job: &mut Job, j: u32, segment: &mut [u8], list: &[u8]) -> Result<(), Refusal>
    ensures { (segment.new, as_answer job.new result) ≡ sweep_of job.old j segment.old list.now }
{
    check_sweep(job, j, segment.len(), list.len())?;
    let terms = job.terms;
    let level = job.phase.level();
    let pair = Pair {
        set: geometry::turns_of(terms),
        size: terms.size,
        j,
        b: job.loaded as u32,
        mark: entry::next_entry((level - 1) % 3),
    };
    let stacks = geometry::stack_count_at(terms, j);
    let found = marking::found_at(&job.counts, level);
    let marked = run::sweep_run(pair, stacks, found, segment, list);
    job.swept[job.loaded as usize] += 1 << j;
    marking::put_found(&mut job.counts, level, marked);
    Ok(())
}
