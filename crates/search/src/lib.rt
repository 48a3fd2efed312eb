// The job and its phases, as types, and the limits: no code but what a phase and a job are asked, only specs/ and proofs/.
#![tactic(auto)]

ghost use Rattle.std.specs.Prelude.{◌≡◌};
ghost use Rattle.search.specs.JobState.{is_blanking, is_level, is_finished, is_reverse, in_forward, in_reverse, level_of, phase_fits};

use stacks::PLACES;

// The limits, by the definitions' names: the segments of a job, the range of S and of C, the last level, the places that the counts of the
// levels take, the most that a count may be, and the turns of a plan.
pub const SEGMENT_LIMIT: usize = 64;

// No segment has this number: a job holds it where none is loaded. It is no Option, as the definitions (`no_segment`), the theorems on them and C have
// the number.
pub const NO_SEGMENT: u8 = 64;

pub const LEAST_SIZE: u32 = 4;

pub const MOST_SIZE: u32 = 67108864;

pub const LEAST_ROOM: u32 = 16;

pub const MOST_ROOM: u32 = 1048576;

pub const LAST_LEVEL: u8 = 255;

pub const COUNT_PLACES: usize = 256;

pub const COUNT_LIMIT: u64 = 1152921504606846976;

pub const PLAN_LIMIT: usize = 254;

// A phase carries its own level: the one being searched, or the deepest.
#[derive(Clone, Copy, Debug, PartialEq, Eq)]
pub enum Phase {
    Blanking,
    Level(u8),
    Finished(u8),
}

impl Phase {
    #[tactic(auto, unfolding(crate::specs::JobState::is_blanking))]
    pub fn is_blanking(self) -> bool
        ensures { result ≡ is_blanking self }
    {
        matches!(self, Phase::Blanking)
    }

    #[tactic(auto, unfolding(crate::specs::JobState::is_level))]
    pub fn is_level(self) -> bool
        ensures { result ≡ is_level self }
    {
        matches!(self, Phase::Level(_))
    }

    #[tactic(auto, unfolding(crate::specs::JobState::is_finished))]
    pub fn is_finished(self) -> bool
        ensures { result ≡ is_finished self }
    {
        matches!(self, Phase::Finished(_))
    }

    // The level that it carries, 0 in Blanking.
    #[tactic(auto, unfolding(crate::specs::JobState::level_of))]
    pub fn level(self) -> u8
        ensures { result ≡ level_of self }
    {
        match self {
            Phase::Blanking => 0,
            Phase::Level(d) | Phase::Finished(d) => d,
        }
    }

    // Whether a job may be in it.
    #[tactic(auto, unfolding(crate::specs::JobState::phase_fits))]
    pub fn fits(self) -> bool
        ensures { result ≡ phase_fits self }
    {
        match self {
            Phase::Blanking => true,
            Phase::Level(d) => 1 <= d && d <= LAST_LEVEL,
            Phase::Finished(d) => d < LAST_LEVEL,
        }
    }
}

// The way that a level is searched: from the stacks of the level before (forward, top-down), or from the unseen ones (reverse, bottom-up).
#[derive(Clone, Copy, Debug, PartialEq, Eq)]
pub enum Way {
    Forward,
    Reverse,
}

// What Begin is given. groups is the set of group sizes that the frame lifts, size k as its bit of weight 2^(k - 1); size is document 01's S,
// room its C.
#[derive(Clone, Copy)]
pub struct Terms {
    pub kind: u8,
    pub n: u8,
    pub wanted: [i8; PLACES],
    pub groups: u32,
    pub size: u32,
    pub room: u32,
}

// A build.
#[derive(Clone, Copy)]
pub struct Job {
    pub terms: Terms,
    pub phase: Phase,
    // The way of the level, and of a reverse one the segment that is loaded, or NO_SEGMENT.
    pub way: Way,
    pub loaded: u8,
    // Of each segment: its stacks passed in this phase (scanned), and its log entries waiting (pending).
    pub passed: [u32; SEGMENT_LIMIT],
    pub waiting: [u32; SEGMENT_LIMIT],
    // Of each segment b: the segments that are swept against it, segment j as the bit of weight 2^j.
    pub swept: [u64; SEGMENT_LIMIT],
    // Of each level: how many stacks are at exactly that many turns of the set.
    pub counts: [u64; COUNT_PLACES],
}

impl Job {
    // A level that is searched forward.
    #[tactic(auto, unfolding(crate::specs::JobState::in_forward, crate::specs::JobState::is_reverse))]
    pub fn in_forward(&self) -> bool
        ensures { result ≡ in_forward self.now }
    {
        self.phase.is_level() && self.way == Way::Forward
    }

    // A level that is searched reverse.
    #[tactic(auto, unfolding(crate::specs::JobState::in_reverse, crate::specs::JobState::is_reverse))]
    pub fn in_reverse(&self) -> bool
        ensures { result ≡ in_reverse self.now }
    {
        self.phase.is_level() && self.way == Way::Reverse
    }
}

// What a level has found so far: how many stacks.
#[derive(Clone, Copy)]
pub struct Found {
    pub count: u64,
}
