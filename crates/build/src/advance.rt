// The driver's step: the call that comes next. No call that the driver makes is refused, so that the job alone says what it did.
// That the job is coherent no type says: the calls take any job and refuse one that is not, and a type that says it would hold the job, which no call
// could then change.
ghost use Rattle.std.specs.Prelude.{true, false, List, ◌≡◌, ℕ, length};
ghost use Rattle.search.specs.Close.{close_of};
ghost use Rattle.search.specs.Drive.{advanced, way_after, store_of};
ghost use Rattle.search.specs.Entries.{bytes_for};
ghost use Rattle.search.specs.JobState.{is_blanking, is_coherent, in_reverse, stack_count_of};
ghost use Rattle.build.specs.Step.{StepFits, ReverseFits, LoadFits};

use crate::{choose, part, way};
use search::{Job, Phase, Way};

// Close, told the way by the driver's rule.
#[tactic(auto, using(job::proofs::Bounds::coherent_rows))]
fn close_phase(job: &mut Job)
    requires { is_coherent job.old ≡ true }
    ensures { job.new ≡ (close_of job.old (way_after job.old)).job }
{
    let way = way::way_after(job);
    let _ = close::close::close(job, way);
}

// In Blanking a segment is blanked.
#[tactic(auto, using(crate::proofs::Advances::phase_closes))]
fn advance_blanking(job: &mut Job, table: &mut [u8])
    requires { (is_coherent job.old ≡ true) × (length table.old ≡ bytes_for (stack_count_of job.old)) × (is_blanking job.old.phase ≡ true) }
    ensures { (log list : List ℕ) → store_of job.new table.new log list ≡ advanced (store_of job.old table.old log list) }
{
    if let Some(j) = choose::first_open(job) {
        let _ = part::blank_part(job, j, table);
    } else {
        close_phase(job);
    }
}

// In a forward level a log is settled, or else a segment expanded.
#[tactic(auto, using(crate::proofs::Advances::phase_closes))]
fn advance_forward(job: &mut Job, table: &mut [u8], log: &mut [u32])
    requires { (is_coherent job.old ≡ true) × (length table.old ≡ bytes_for (stack_count_of job.old)) × (is_blanking job.old.phase ≡ false) × (in_reverse job.old ≡ false) }
    ensures { (list : List ℕ) → store_of job.new table.new log.new list ≡ advanced (store_of job.old table.old log.old list) }
{
    if let Some(t) = choose::first_pending(job) {
        let _ = part::settle_part(job, t, table, log);
    } else if let Some(j) = choose::first_open(job) {
        let _ = part::expand_part(job, j, table, log);
    } else {
        close_phase(job);
    }
}

// In a reverse level, with no pair left of the loaded segment, the first one with pairs left is loaded.
#[tactic(auto, using(crate::proofs::Advances::phase_closes))]
fn advance_load(job: &mut Job, table: &[u8], list: &mut [u8])
    requires { LoadFits job.old table.now list.old }
    ensures { (log : List ℕ) → store_of job.new table.now log list.new ≡ advanced (store_of job.old table.now log list.old) }
{
    if let Some(b) = choose::first_unswept(job) {
        let _ = part::load_part(job, b, table, list);
    } else {
        close_phase(job);
    }
}

// In a reverse level a segment is swept against the loaded one.
fn advance_reverse(job: &mut Job, table: &mut [u8], list: &mut [u8])
    requires { ReverseFits job.old table.old list.old }
    ensures { (log : List ℕ) → store_of job.new table.new log list.new ≡ advanced (store_of job.old table.old log list.old) }
{
    if let Some(j) = choose::first_pair(job) {
        let _ = part::sweep_part(job, j, table, list);
    } else {
        advance_load(job, table, list);
    }
}

// The call that comes next, by the phase and the way; with nothing left to do there the phase is closed.
#[tactic(auto, unfolding(search::specs::JobState::is_blanking, search::specs::JobState::is_level, search::specs::JobState::is_reverse, search::specs::JobState::in_reverse))]
pub(crate) fn advance(job: &mut Job, table: &mut [u8], log: &mut [u32], list: &mut [u8])
    requires { StepFits job.old table.old list.old }
    ensures { store_of job.new table.new log.new list.new ≡ advanced (store_of job.old table.old log.old list.old) }
{
    match (job.phase, job.way) {
        (Phase::Blanking, _) => advance_blanking(job, table),
        (Phase::Level(_), Way::Reverse) => advance_reverse(job, table, list),
        _ => advance_forward(job, table, log),
    }
}
