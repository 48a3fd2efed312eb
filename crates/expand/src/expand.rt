// Expand a segment. What a call does not change is copied to a Scan, and the job's waiting numbers are lent, so that no function that runs for a
// stack or a child takes the job.
ghost use Rattle.std.specs.Prelude.{◌≡◌, ◌≤◌};
ghost use Rattle.stacks.specs.Refusals.{refusal_of};
ghost use Rattle.search.specs.Expand.{expand_refusal, expand_of};
ghost use Rattle.search.specs.JobState.{level_of};
ghost use Rattle.search.specs.Results.{as_expanded};
ghost use Rattle.search.specs.Terms.{begin_refusal};
ghost use Rattle.expand.specs.Scan.{ScanOf};

use crate::place::Running;
use crate::scan::Scan;
use job::{geometry, refusals};
use search::Job;
use stacks::Refusal;
use twobit::{entry, marking};

fn check_expand(job: &Job, j: u32, bytes: usize, words: usize) -> Result<(), Refusal>
    ensures { refusal_of result ≡ expand_refusal job.now j bytes words }
{
    refusals::check_level(job, j, bytes, words)?;
    if geometry::stack_count_at(job.terms, j) <= job.passed[j as usize] {
        return Err(Refusal::Passed);
    }
    Ok(())
}

fn scan_of(job: &Job, j: u32) -> Scan
    requires { (begin_refusal job.now.terms ≡ 0) × (1 ≤ level_of job.now.phase) }
    ensures { ScanOf job.now j result }
{
    let terms = job.terms;
    let level = job.phase.level();
    let from = (level - 1) % 3;
    let set = geometry::turns_of(terms);
    Scan {
        set,
        size: terms.size,
        room: terms.room,
        segments: geometry::segment_count_of(terms),
        turns: set.count(),
        j,
        level,
        from,
        mark: entry::next_entry(from),
    }
}

// Expand: the segment that the call waits for, if it waits.
pub fn expand(
    job: &mut Job,
    j: u32,
    segment: &mut [u8],
    log: &mut [u32],
) -> Result<Option<u32>, Refusal>
    ensures { (segment.new, log.new, as_expanded job.new result) ≡ expand_of job.old j segment.old log.old }
{
    check_expand(job, j, segment.len(), log.len())?;
    let scan = scan_of(job, j);
    let first = job.passed[j as usize];
    let stacks = geometry::stack_count_at(job.terms, j);
    let found = marking::found_at(&job.counts, scan.level);
    let mut running = Running {
        segment,
        log,
        waiting: &mut job.waiting,
        found,
    };
    let reached = running.run(scan, first, stacks);
    let found = running.found;
    job.passed[j as usize] = reached.at;
    marking::put_found(&mut job.counts, scan.level, found);
    Ok(reached.waits_for)
}
