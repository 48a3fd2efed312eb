// What the driver's choice goes by: the first segment that still has something to do, if one has.
ghost use Rattle.std.specs.Prelude.{true, ◌≡◌};
ghost use Rattle.build.specs.First.{IsFirst, IsPair};
ghost use Rattle.search.specs.Drive.{first_open, first_pending, first_unswept};
ghost use Rattle.search.specs.JobState.{is_coherent, segment_count_of};

use job::geometry;
use search::{Job, NO_SEGMENT};

// The first with stacks that are not passed.
#[tactic(auto, using(job::proofs::Bounds::coherent_rows))]
pub(crate) fn first_open(job: &Job) -> Option<u32>
    requires { is_coherent job.now ≡ true }
    ensures { IsFirst (first_open job.now) (segment_count_of job.now) result }
{
    let segments = geometry::segment_count_of(job.terms);
    (0..segments).find(|&j| job.passed[j as usize] < geometry::stack_count_at(job.terms, j))
}

// The first with entries waiting.
#[tactic(auto, using(job::proofs::Bounds::coherent_rows))]
pub(crate) fn first_pending(job: &Job) -> Option<u32>
    requires { is_coherent job.now ≡ true }
    ensures { IsFirst (first_pending job.now) (segment_count_of job.now) result }
{
    let segments = geometry::segment_count_of(job.terms);
    (0..segments).find(|&t| job.waiting[t as usize] != 0)
}

// The first that is not swept whole.
#[tactic(auto, using(job::proofs::Bounds::coherent_rows))]
pub(crate) fn first_unswept(job: &Job) -> Option<u32>
    requires { is_coherent job.now ≡ true }
    ensures { IsFirst (first_unswept job.now) (segment_count_of job.now) result }
{
    let segments = geometry::segment_count_of(job.terms);
    (0..segments).find(|&b| !close::close::is_swept_whole(segments, job.swept[b as usize]))
}

// The first that is not swept against the loaded one, where one is loaded.
#[tactic(auto, using(job::proofs::Bounds::coherent_rows))]
pub(crate) fn first_pair(job: &Job) -> Option<u32>
    requires { is_coherent job.now ≡ true }
    ensures { IsPair job.now result }
{
    if job.loaded == NO_SEGMENT {
        return None;
    }
    let segments = geometry::segment_count_of(job.terms);
    let row = job.swept[job.loaded as usize];
    (0..segments).find(|&j| (row >> j) % 2 != 1)
}
