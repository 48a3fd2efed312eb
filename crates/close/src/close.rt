// Close: from one phase to the next.
ghost use Rattle.std.specs.Prelude.{true, false, ◌≡◌, ◌≤◌, ◌<◌};
ghost use Rattle.base.specs.Words.{all, from};
ghost use Rattle.close.specs.Ready.{row_whole};
ghost use Rattle.search.specs.Close.{is_done, is_swept_whole, is_ready, is_past_last, close_refusal, next_phase, next_counts, close_of};
ghost use Rattle.search.specs.JobState.{phase_fits, stack_count_of, segment_count_of};
ghost use Rattle.search.specs.Results.{as_answer};
ghost use Rattle.search.specs.Segments.{segment_limit};
ghost use Rattle.search.specs.Terms.{begin_refusal};
ghost use Rattle.stacks.specs.Refusals.{refusal_of};

use job::{coherence, geometry};
use search::{COUNT_PLACES, Job, LAST_LEVEL, NO_SEGMENT, Phase, SEGMENT_LIMIT, Way};
use stacks::Refusal;
use twobit::segment;

// Segment j has all its stacks passed and no entry waiting; count is N.
#[tactic(auto, unfolding(search::specs::Close::is_done, search::specs::JobState::passed_of, search::specs::JobState::waiting_of, search::specs::JobState::stack_count_at))]
fn is_done(job: &Job, count: u32, j: u32) -> bool
    requires { (count ≡ stack_count_of job.now) × (j < segment_limit) }
    ensures { result ≡ is_done job.now j }
{
    let at = j as usize;
    job.passed[at] == segment::stack_count_in(count, job.terms.size, j) && job.waiting[at] == 0
}

// Each segment is done.
#[tactic(auto, unfolding(search::specs::JobState::segment_count_of, search::specs::JobState::stack_count_of))]
fn are_done(job: &Job) -> bool
    requires { begin_refusal job.now.terms ≡ 0 }
    ensures { result ≡ all (is_done job.now) (from 0 (segment_count_of job.now)) }
{
    let count = geometry::panes_of(job.terms).stack_count();
    let segments = geometry::segment_count_of(job.terms);
    (0..segments).all(|j| is_done(job, count, j))
}

// Every segment is swept against the one whose number this is.
pub fn is_swept_whole(segments: u32, row: u64) -> bool
    requires { segments ≤ segment_limit }
    ensures { result ≡ row_whole segments row }
{
    (0..segments).all(|j| (row >> j) % 2 == 1)
}

// Each pair of segments is swept.
fn are_swept(job: &Job) -> bool
    requires { begin_refusal job.now.terms ≡ 0 }
    ensures { result ≡ all (is_swept_whole job.now) (from 0 (segment_count_of job.now)) }
{
    let segments = geometry::segment_count_of(job.terms);
    job.swept[..segments as usize]
        .iter()
        .all(|row| is_swept_whole(segments, *row))
}

// In a reverse level the pairs alone are asked for.
#[tactic(auto, unfolding(search::specs::Close::is_ready))]
fn is_ready(job: &Job) -> bool
    requires { begin_refusal job.now.terms ≡ 0 }
    ensures { result ≡ is_ready job.now }
{
    if job.in_reverse() {
        are_swept(job)
    } else {
        are_done(job)
    }
}

// The last level is searched, and brought stacks: no level can follow it.
#[tactic(auto, unfolding(search::specs::Close::is_past_last, search::specs::JobState::count_of))]
fn is_past_last(job: &Job) -> bool
    ensures { result ≡ is_past_last job.now }
{
    job.phase.level() == LAST_LEVEL && job.counts[LAST_LEVEL as usize] != 0
}

// Close's refusals, by which a driver knows too that the last level is reached.
#[tactic(auto, unfolding(search::specs::Close::close_refusal, stacks::specs::Refusals::number))]
pub fn check_close(job: &Job) -> Result<(), Refusal>
    ensures { refusal_of result ≡ close_refusal job.now }
{
    if !coherence::is_coherent(job) {
        return Err(Refusal::Incoherent);
    }
    if job.phase.is_finished() {
        return Err(Refusal::Phase);
    }
    if !is_ready(job) {
        return Err(Refusal::NotReady);
    }
    if is_past_last(job) {
        return Err(Refusal::LastLevel);
    }
    Ok(())
}

// The phase after the job's: a level that brought no stacks ends the search. After the last level comes none, so that d + 1 fits a byte.
#[tactic(auto, unfolding(search::specs::Close::next_phase))]
fn next_phase(job: &Job) -> Phase
    requires { (phase_fits job.now.phase ≡ true) × (is_past_last job.now ≡ false) }
    ensures { result ≡ next_phase job.now.counts job.now.phase }
{
    match job.phase {
        Phase::Blanking => Phase::Level(1),
        Phase::Level(d) if job.counts[d as usize] == 0 => Phase::Finished(d - 1),
        Phase::Level(d) => Phase::Level(d + 1),
        Phase::Finished(d) => Phase::Finished(d),
    }
}

// When Blanking closes, the wanted stack is counted.
#[tactic(auto, unfolding(search::specs::Close::next_counts))]
fn next_counts(phase: Phase, counts: &mut [u64; COUNT_PLACES])
    ensures { counts.new ≡ next_counts counts.old phase }
{
    if let Phase::Blanking = phase {
        counts[0] = 1;
    }
}

// Close, told the way of the next level, which has nothing passed, loaded or swept.
pub fn close(job: &mut Job, way: Way) -> Result<(), Refusal>
    ensures { as_answer job.new result ≡ close_of job.old way }
{
    check_close(job)?;
    let phase = next_phase(job);
    next_counts(job.phase, &mut job.counts);
    job.phase = phase;
    job.way = way;
    job.loaded = NO_SEGMENT;
    job.passed = [0; SEGMENT_LIMIT];
    job.swept = [0; SEGMENT_LIMIT];
    Ok(())
}
