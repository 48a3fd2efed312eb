// The way that the driver tells Close: reverse where few stacks are unseen.
ghost use Rattle.std.specs.Prelude.{◌≡◌, ◌-◌};
ghost use Rattle.base.specs.Words.{total};
ghost use Rattle.search.specs.Drive.{way_after};
ghost use Rattle.search.specs.Terms.{begin_refusal};

use job::geometry;
use search::{Job, Way};

// The stacks that no level has counted. The sum of the counts might not fit, so that each is taken off by itself.
fn unseen_of(stacks: u32, counts: &[u64]) -> u64
    ensures { result ≡ stacks - total counts.now }
{
    counts.iter().fold(u64::from(stacks), |left, count| left.saturating_sub(*count))
}

// An unseen stack is tried once for each segment that is loaded, a stack of the level that closes is expanded once.
#[tactic(auto, unfolding(search::specs::Drive::way_after, search::specs::Drive::is_few, search::specs::JobState::stack_count_of, search::specs::JobState::segment_count_of, search::specs::JobState::count_of), using(job::proofs::Begun::begun_terms))]
pub(crate) fn way_after(job: &Job) -> Way
    requires { begin_refusal job.now.terms ≡ 0 }
    ensures { result ≡ way_after job.now }
{
    let terms = job.terms;
    let unseen = unseen_of(geometry::panes_of(terms).stack_count(), &job.counts);
    let segments = geometry::segment_count_of(terms);
    if unseen * u64::from(segments) <= job.counts[job.phase.level() as usize] {
        Way::Reverse
    } else {
        Way::Forward
    }
}
