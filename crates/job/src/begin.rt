// Begin.
ghost use Rattle.std.specs.Prelude.{◌≡◌};
ghost use Rattle.search.specs.Begin.{begun, no_job, begin_of};
ghost use Rattle.search.specs.Results.{as_begun};

use crate::coherence;
use search::{COUNT_PLACES, Job, NO_SEGMENT, Phase, SEGMENT_LIMIT, Terms, Way};
use stacks::{PLACES, Refusal};

// A job in Blanking, its way forward, with nothing passed, waiting, loaded, swept or counted.
#[tactic(auto, unfolding(search::specs::Begin::begun))]
fn new_job(terms: Terms) -> Job
    ensures { result ≡ begun terms }
{
    Job {
        terms,
        phase: Phase::Blanking,
        way: Way::Forward,
        loaded: NO_SEGMENT,
        passed: [0; SEGMENT_LIMIT],
        waiting: [0; SEGMENT_LIMIT],
        swept: [0; SEGMENT_LIMIT],
        counts: [0; COUNT_PLACES],
    }
}

// The job of nothing, which C has beside a refusal: no call accepts it.
pub fn no_job() -> Job
    ensures { result ≡ no_job }
{
    new_job(Terms {
        kind: 0,
        n: 0,
        wanted: [0; PLACES],
        groups: 0,
        size: 0,
        room: 0,
    })
}

// Begin.
#[tactic(auto, unfolding(search::specs::Begin::begin_of), using(crate::proofs::Begun::begin_errs))]
pub fn begin(terms: Terms) -> Result<Job, Refusal>
    ensures { as_begun result ≡ begin_of terms }
{
    coherence::check_terms(terms)?;
    Ok(new_job(terms))
}
