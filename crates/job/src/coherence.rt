// Whether a job is coherent, decided by Begin's own refusals and by its numbers.
ghost use Rattle.std.specs.Prelude.{◌≡◌, ◌<◌, ◌≤◌, ◌^◌, cond, ltb, get_or};
ghost use Rattle.base.specs.Words.{all, from};
ghost use Rattle.search.specs.JobState.{count_in_limit, is_coherent, loaded_fits, segment_fits, swept_fits};
ghost use Rattle.search.specs.Segments.{segment_limit};
ghost use Rattle.search.specs.Terms.{G, begin_refusal};
ghost use Rattle.stacks.specs.Refusals.{refusal_of};

use crate::geometry;
use perm::groups::TurnSet;
use perm::panes::Panes;
use search::{COUNT_LIMIT, COUNT_PLACES, Job, NO_SEGMENT, SEGMENT_LIMIT, Terms};
use stacks::Refusal;
use twobit::segment;

// Begin's refusals, which a job's terms must pass too.
#[tactic(auto, unfolding(stacks::specs::Refusals::number), using(crate::proofs::Refusing::terms_rows))]
pub fn check_terms(terms: Terms) -> Result<(), Refusal>
    ensures { refusal_of result ≡ begin_refusal terms }
{
    let panes = Panes::with_stack(terms.kind, terms.n, terms.wanted)?;
    TurnSet::new(panes, terms.groups)?;
    if !segment::is_segment_size(panes.stack_count(), terms.size) {
        return Err(Refusal::Size);
    }
    if !segment::is_log_room(terms.room) {
        return Err(Refusal::Room);
    }
    Ok(())
}

// The numbers of every segment, of those from G up too.
fn segments_fit(job: &Job) -> bool
    requires { begin_refusal job.now.terms ≡ 0 }
    ensures { result ≡ all (segment_fits job.now) (from 0 segment_limit) }
{
    let segments = geometry::segment_count_of(job.terms);
    (0..SEGMENT_LIMIT).all(|j| segment_fits(job, segments, j))
}

// A segment from G up has no stacks. It is asked for first, as most of the 64 are such.
fn segment_fits(job: &Job, segments: u32, j: usize) -> bool
    requires { (begin_refusal job.now.terms ≡ 0) × (segments ≡ G job.now.terms) × (j < segment_limit) }
    ensures { result ≡ segment_fits job.now j }
{
    let passed = job.passed[j];
    let waiting = job.waiting[j];
    if segments as usize <= j {
        return passed == 0 && waiting == 0;
    }
    passed <= geometry::stack_count_at(job.terms, j as u32) && waiting <= job.terms.room
}

// Each count is at most the limit.
pub fn counts_fit(counts: &[u64; COUNT_PLACES]) -> bool
    ensures { result ≡ all count_in_limit counts.now }
{
    counts.iter().all(|count| *count <= COUNT_LIMIT)
}

// None is loaded, or a segment below G.
#[tactic(auto, unfolding(search::specs::JobState::loaded_fits, search::specs::JobState::is_loaded), using(crate::proofs::Bounds::segments_are))]
fn loaded_fits(job: &Job) -> bool
    requires { begin_refusal job.now.terms ≡ 0 }
    ensures { result ≡ loaded_fits job.now }
{
    job.loaded == NO_SEGMENT || (job.loaded as u32) < geometry::segment_count_of(job.terms)
}

// The numbers of swept pairs, of the segments from G up too.
fn sweeps_fit(job: &Job) -> bool
    requires { begin_refusal job.now.terms ≡ 0 }
    ensures { result ≡ all (swept_fits job.now) (from 0 segment_limit) }
{
    let segments = geometry::segment_count_of(job.terms);
    (0..SEGMENT_LIMIT).all(|b| row_fits(segments, b, job.swept[b]))
}

// The number of segment b has only its lowest G bits, and none from segment G up. A number has no bit from 64 up, and no shift goes so far.
fn row_fits(segments: u32, b: usize, row: u64) -> bool
    requires { segments ≤ segment_limit }
    ensures { result ≡ ltb row (cond (ltb b segments) (2 ^ segments) 1) }
{
    if segments as usize <= b {
        return row == 0;
    }
    segments as usize == SEGMENT_LIMIT || row >> segments == 0
}

// Whether a job is coherent, whatever its way. It is lent, so that none of its arrays is copied.
#[tactic(auto, unfolding(search::specs::JobState::is_coherent, search::specs::JobState::counts_fit), using(crate::proofs::Begun::errs))]
pub fn is_coherent(job: &Job) -> bool
    ensures { result ≡ is_coherent job.now }
{
    if check_terms(job.terms).is_err() {
        return false;
    }
    job.phase.fits()
        && segments_fit(job)
        && counts_fit(&job.counts)
        && loaded_fits(job)
        && sweeps_fit(job)
}
