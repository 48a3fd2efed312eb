// Code: the job, a stack and the answers as C sees them, and the conversions to and from the operations' own types.
#![tactic(auto)]

ghost use Rattle.std.specs.Prelude.{◌≡◌, MatchResult};
ghost use Rattle.stacks.specs.Refusals.{number, as_indexed, as_stacked};
ghost use Rattle.search.specs.Results.{as_answer, as_begun, as_expanded, as_entry, as_planned};
ghost use Rattle.tariff.specs.Results.{as_priced};
ghost use Rattle.mirror.specs.Mirror.{phase_number, phase_of, is_phase, way_number, way_of, is_job, cleared, job_of, mirror_of, indexed_of, stacked_of, answer_of, expanded_of, entry_read_of, planned_of, priced_of};

use job::begin;
use search::{COUNT_PLACES, Job, Phase, SEGMENT_LIMIT, Terms, Way};
use stacks::{PLACES, Refusal};
use tariff::Cost;

#[derive(Clone, Copy)]
#[repr(C)]
pub struct HokrundStack {
    pub places: [i8; PLACES],
}

// search's Job, its phase as two numbers: 0 Blanking with level 0, 1 Level, 2 Finished. Its way is 0 forward, 1 reverse. The reserved bytes are 0
// in every mirror that goes out, and play no part in one that comes in; with them every byte of a mirror belongs to a field.
#[derive(Clone, Copy)]
#[repr(C)]
pub struct HokrundJob {
    pub kind: u8,
    pub n: u8,
    pub phase: u8,
    pub level: u8,
    pub way: u8,
    pub loaded: u8,
    pub wanted: HokrundStack,
    pub reserved: [u8; 2],
    pub groups: u32,
    pub size: u32,
    pub room: u32,
    pub passed: [u32; SEGMENT_LIMIT],
    pub waiting: [u32; SEGMENT_LIMIT],
    pub swept: [u64; SEGMENT_LIMIT],
    pub counts: [u64; COUNT_PLACES],
}

#[derive(Clone, Copy)]
#[repr(C)]
pub struct HokrundIndexed {
    pub refusal: u8,
    pub index: u32,
}

#[derive(Clone, Copy)]
#[repr(C)]
pub struct HokrundStacked {
    pub refusal: u8,
    pub stack: HokrundStack,
}

#[derive(Clone, Copy)]
#[repr(C)]
pub struct HokrundAnswer {
    pub refusal: u8,
    pub job: HokrundJob,
}

#[derive(Clone, Copy)]
#[repr(C)]
pub struct HokrundExpanded {
    pub refusal: u8,
    pub waits: bool,
    pub on: u32,
    pub job: HokrundJob,
}

// The waiting part stands in the caller's log area from start on. Beside a refusal both numbers are 0.
#[derive(Clone, Copy)]
#[repr(C)]
pub struct HokrundLook {
    pub refusal: u8,
    pub start: usize,
    pub length: usize,
}

#[derive(Clone, Copy)]
#[repr(C)]
pub struct HokrundEntry {
    pub refusal: u8,
    pub entry: u8,
}

#[derive(Clone, Copy)]
#[repr(C)]
pub struct HokrundPlanned {
    pub refusal: u8,
    pub turns: u32,
}

#[derive(Clone, Copy)]
#[repr(C)]
pub struct HokrundPriced {
    pub refusal: u8,
    pub turns: u32,
    pub pennies: u32,
}

// The numbers of a phase and of a way are the interface's alone, so that they stand here and not beside Phase and Way, and a type of another crate takes
// no From here.
#[tactic(auto, unfolding(crate::specs::Mirror::phase_number))]
pub fn phase_number(phase: Phase) -> u8
    ensures { result ≡ phase_number phase }
{
    match phase {
        Phase::Blanking => 0,
        Phase::Level(_) => 1,
        Phase::Finished(_) => 2,
    }
}

pub fn phase_of(number: u8, level: u8) -> Phase
    ensures { result ≡ phase_of number level }
{
    match number {
        0 => Phase::Blanking,
        1 => Phase::Level(level),
        _ => Phase::Finished(level),
    }
}

fn is_phase(number: u8, level: u8) -> bool
    ensures { result ≡ is_phase number level }
{
    match number {
        0 => level == 0,
        _ => number < 3,
    }
}

#[tactic(auto, unfolding(crate::specs::Mirror::way_number))]
pub fn way_number(way: Way) -> u8
    ensures { result ≡ way_number way }
{
    match way {
        Way::Forward => 0,
        Way::Reverse => 1,
    }
}

// 0 is forward, any other number reverse.
pub fn way_of(number: u8) -> Way
    ensures { result ≡ way_of number }
{
    match number {
        0 => Way::Forward,
        _ => Way::Reverse,
    }
}

impl HokrundJob {
    // Whether its numbers are those of a phase and of a way.
    #[tactic(auto, unfolding(crate::specs::Mirror::is_job, crate::specs::Mirror::is_way))]
    pub fn is_job(&self) -> bool
        ensures { result ≡ is_job self.now }
    {
        is_phase(self.phase, self.level) && self.way < 2
    }

    // As it goes back beside a refusal.
    #[tactic(auto, unfolding(crate::specs::Mirror::cleared))]
    pub fn cleared(&self) -> HokrundJob
        ensures { result ≡ cleared self.now }
    {
        HokrundJob {
            reserved: [0u8; 2],
            ..*self
        }
    }

    // What a call of a mirror that is no job's is answered.
    #[tactic(auto, unfolding(stacks::specs::Refusals::number))]
    pub fn refused(&self) -> HokrundAnswer
        ensures refusal { result.refusal ≡ 7 }
        ensures job { result.job ≡ cleared self.now }
    {
        HokrundAnswer {
            refusal: Refusal::Incoherent.into(),
            job: self.cleared(),
        }
    }
}

// The two conversions, which are total, as `job_of` and `mirror_of` of the definitions are: whether a mirror is a job's is asked first. A new field of the
// job is a line in each; their proofs and laws name no field but the phase and the way.
impl From<&HokrundJob> for Job {
    ghost from_gives = { λ mirror job. job ≡ job_of mirror.now };

    #[tactic(auto, unfolding(crate::specs::Mirror::job_of))]
    fn from(mirror: &HokrundJob) -> Job {
        Job {
            terms: Terms {
                kind: mirror.kind,
                n: mirror.n,
                wanted: mirror.wanted.places,
                groups: mirror.groups,
                size: mirror.size,
                room: mirror.room,
            },
            phase: phase_of(mirror.phase, mirror.level),
            way: way_of(mirror.way),
            loaded: mirror.loaded,
            passed: mirror.passed,
            waiting: mirror.waiting,
            swept: mirror.swept,
            counts: mirror.counts,
        }
    }
}

impl From<&Job> for HokrundJob {
    ghost from_gives = { λ job mirror. mirror ≡ mirror_of job.now };

    #[tactic(auto, unfolding(crate::specs::Mirror::mirror_of))]
    fn from(job: &Job) -> HokrundJob {
        HokrundJob {
            kind: job.terms.kind,
            n: job.terms.n,
            phase: phase_number(job.phase),
            level: job.phase.level(),
            way: way_number(job.way),
            loaded: job.loaded,
            wanted: HokrundStack {
                places: job.terms.wanted,
            },
            reserved: [0; 2],
            groups: job.terms.groups,
            size: job.terms.size,
            room: job.terms.room,
            passed: job.passed,
            waiting: job.waiting,
            swept: job.swept,
            counts: job.counts,
        }
    }
}

// The refusal's number, 0 for none, and what was found, or what stands beside a refusal.
fn parted<T: Drop>(outcome: Result<T, Refusal>, none: T) -> (u8, T)
    ensures { MatchResult outcome (λ found. result ≡ (0, found)) (λ refusal. result ≡ (number refusal, none)) }
{
    match outcome {
        Ok(found) => (0, found),
        Err(refusal) => (refusal.into(), none),
    }
}

impl From<Result<u32, Refusal>> for HokrundIndexed {
    ghost from_gives = { λ outcome answer. answer ≡ indexed_of (as_indexed outcome) };

    #[tactic(auto, unfolding(crate::specs::Mirror::indexed_of))]
    fn from(outcome: Result<u32, Refusal>) -> HokrundIndexed {
        let (refusal, index) = parted(outcome, 0);
        HokrundIndexed { refusal, index }
    }
}

impl From<Result<[i8; PLACES], Refusal>> for HokrundStacked {
    ghost from_gives = { λ outcome answer. answer ≡ stacked_of (as_stacked outcome) };

    #[tactic(auto, unfolding(crate::specs::Mirror::stacked_of))]
    fn from(outcome: Result<[i8; PLACES], Refusal>) -> HokrundStacked {
        let (refusal, places) = parted(outcome, [0; PLACES]);
        HokrundStacked {
            refusal,
            stack: HokrundStack { places },
        }
    }
}

impl HokrundAnswer {
    // What a call that was lent the job has come to.
    #[tactic(auto, unfolding(crate::specs::Mirror::answer_of))]
    pub fn new(job: &Job, outcome: Result<(), Refusal>) -> HokrundAnswer
        ensures { result ≡ answer_of (as_answer job.now outcome) }
    {
        let (refusal, ()) = parted(outcome, ());
        HokrundAnswer {
            refusal,
            job: job.into(),
        }
    }
}

// What Begin and Build the whole table have come to: beside a refusal the job of nothing, which no call accepts.
impl From<Result<Job, Refusal>> for HokrundAnswer {
    ghost from_gives = { λ outcome answer. answer ≡ answer_of (as_begun outcome) };

    #[tactic(auto, unfolding(crate::specs::Mirror::answer_of))]
    fn from(outcome: Result<Job, Refusal>) -> HokrundAnswer {
        match outcome {
            Ok(job) => HokrundAnswer::new(&job, Ok(())),
            Err(refusal) => HokrundAnswer::new(&begin::no_job(), Err(refusal)),
        }
    }
}

impl HokrundExpanded {
    // What Expand, which was lent the job, has come to.
    #[tactic(auto, unfolding(crate::specs::Mirror::expanded_of))]
    pub fn new(job: &Job, outcome: Result<Option<u32>, Refusal>) -> HokrundExpanded
        ensures { result ≡ expanded_of (as_expanded job.now outcome) }
    {
        let (refusal, waits_for) = parted(outcome, None);
        HokrundExpanded {
            refusal,
            waits: waits_for.is_some(),
            on: waits_for.unwrap_or(0),
            job: job.into(),
        }
    }
}

impl HokrundLook {
    // Beside a refusal.
    pub fn refused(refusal: Refusal) -> HokrundLook
        ensures refusal { result.refusal ≡ number refusal }
        ensures part { (result.start ≡ 0) × (result.length ≡ 0) }
    {
        HokrundLook {
            refusal: refusal.into(),
            start: 0,
            length: 0,
        }
    }
}

impl From<Result<u8, Refusal>> for HokrundEntry {
    ghost from_gives = { λ outcome answer. answer ≡ entry_read_of (as_entry outcome) };

    #[tactic(auto, unfolding(crate::specs::Mirror::entry_read_of))]
    fn from(outcome: Result<u8, Refusal>) -> HokrundEntry {
        let (refusal, entry) = parted(outcome, 0);
        HokrundEntry { refusal, entry }
    }
}

impl From<Result<u32, Refusal>> for HokrundPlanned {
    ghost from_gives = { λ outcome answer. answer ≡ planned_of (as_planned outcome) };

    #[tactic(auto, unfolding(crate::specs::Mirror::planned_of))]
    fn from(outcome: Result<u32, Refusal>) -> HokrundPlanned {
        let (refusal, turns) = parted(outcome, 0);
        HokrundPlanned { refusal, turns }
    }
}

impl From<Result<Cost, Refusal>> for HokrundPriced {
    ghost from_gives = { λ outcome answer. answer ≡ priced_of (as_priced outcome) };

    #[tactic(auto, unfolding(crate::specs::Mirror::priced_of))]
    fn from(outcome: Result<Cost, Refusal>) -> HokrundPriced {
        let nothing = Cost {
            turns: 0,
            pennies: 0,
        };
        let (refusal, cost) = parted(outcome, nothing);
        HokrundPriced {
            refusal,
            turns: cost.turns,
            pennies: cost.pennies,
        }
    }
}
