// Build the whole table.
ghost use Rattle.std.specs.Prelude.{◌≡◌};
ghost use Rattle.search.specs.Drive.{has_ended, build_refusal, build_of};
ghost use Rattle.search.specs.Results.{as_begun};
ghost use Rattle.search.specs.Terms.{begin_refusal};
ghost use Rattle.stacks.specs.Refusals.{refusal_of};

use crate::advance;
use job::{begin, geometry};
use search::{Job, LAST_LEVEL, Terms};
use stacks::Refusal;
use twobit::{list, segment};

// Behind Begin's refusals, 10 for the table, the log area and the list.
#[tactic(auto, unfolding(search::specs::Drive::build_refusal, search::specs::Promise::right_words, stacks::specs::Refusals::number), using(job::proofs::Begun::begun_terms))]
fn check_lent(terms: Terms, bytes: usize, words: usize, listed: usize) -> Result<(), Refusal>
    requires { begin_refusal terms ≡ 0 }
    ensures { refusal_of result ≡ build_refusal terms bytes words listed }
{
    let count = geometry::panes_of(terms).stack_count();
    let longest = geometry::stack_count_at(terms, 0);
    if bytes != segment::bytes_for(count) as usize
        || words != geometry::log_length(terms)
        || listed != list::list_bytes(longest) as usize
    {
        return Err(Refusal::Length);
    }
    Ok(())
}

// It has finished, or there is no level after the last. Close is asked at the last level alone.
#[tactic(auto, unfolding(search::specs::Drive::has_ended, stacks::specs::Refusals::number), using(crate::proofs::Building::last_alone))]
fn has_ended(job: &Job) -> bool
    ensures { result ≡ has_ended job.now }
{
    job.phase.is_finished()
        || job.phase.level() == LAST_LEVEL
            && matches!(close::close::check_close(job), Err(Refusal::LastLevel))
}

// A build from Begin to its end, in a table, a log area and a changed list of the right lengths. Refused, they are as they were.
pub fn build_table(
    terms: Terms,
    table: &mut [u8],
    log: &mut [u32],
    list: &mut [u8],
) -> Result<Job, Refusal>
    ensures { (table.new, log.new, list.new, as_begun result) ≡ build_of terms table.old log.old list.old }
{
    let mut job = begin::begin(terms)?;
    check_lent(terms, table.len(), log.len(), list.len())?;
    // It counts nothing, and ends where the build has.
    while !has_ended(&job) {
        advance::advance(&mut job, table, log, list);
    }
    Ok(job)
}
