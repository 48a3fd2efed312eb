// Begin, and the calls on a job: a mirror whose numbers are no phase or no way is refused 7 and given back, what is reserved cleared; any other goes
// to the operation. Each of the seven
// says so itself: a closure for the operation tells nothing of the buffers that it captures and changes without clauses of its own, seven times.
ghost use Rattle.std.specs.Prelude.{◌≡◌, take, drop};
ghost use Rattle.search.specs.Begin.{begin_of};
ghost use Rattle.search.specs.Terms.{terms_of};
ghost use Rattle.mirror.specs.Mirror.{answer_of};
ghost use Rattle.hokrund.specs.Calls.{blank_call, expand_call, settle_call, load_call, sweep_call, look_call, close_call};

use calls::{blank, load, look, settle};
use job::begin;
use mirror::{HokrundAnswer, HokrundExpanded, HokrundJob, HokrundLook, HokrundStack};
use search::{Job, Terms};
use stacks::Refusal;

pub fn hokrund_begin(
    kind: u8,
    n: u8,
    wanted: HokrundStack,
    groups: u32,
    size: u32,
    room: u32,
) -> HokrundAnswer
    ensures { result ≡ answer_of (begin_of (terms_of kind n wanted.places groups size room)) }
{
    let wanted = wanted.places;
    begin::begin(Terms {
        kind,
        n,
        wanted,
        groups,
        size,
        room,
    })
    .into()
}

pub fn hokrund_blank(job: HokrundJob, j: u32, segment: &mut [u8]) -> HokrundAnswer
    ensures { (segment.new, result) ≡ blank_call job j segment.old }
{
    if !job.is_job() {
        return job.refused();
    }
    let mut called = Job::from(&job);
    let outcome = blank::blank(&mut called, j, segment);
    HokrundAnswer::new(&called, outcome)
}

pub fn hokrund_expand(
    job: HokrundJob,
    j: u32,
    segment: &mut [u8],
    log: &mut [u32],
) -> HokrundExpanded
    ensures { (segment.new, log.new, result) ≡ expand_call job j segment.old log.old }
{
    if !job.is_job() {
        return HokrundExpanded {
            refusal: Refusal::Incoherent.into(),
            waits: false,
            on: 0,
            job: job.cleared(),
        };
    }
    let mut called = Job::from(&job);
    let outcome = expand::expand::expand(&mut called, j, segment, log);
    HokrundExpanded::new(&called, outcome)
}

pub fn hokrund_settle(job: HokrundJob, j: u32, segment: &mut [u8], log: &[u32]) -> HokrundAnswer
    ensures { (segment.new, result) ≡ settle_call job j segment.old log.now }
{
    if !job.is_job() {
        return job.refused();
    }
    let mut called = Job::from(&job);
    let outcome = settle::settle(&mut called, j, segment, log);
    HokrundAnswer::new(&called, outcome)
}

pub fn hokrund_load(job: HokrundJob, b: u32, segment: &[u8], list: &mut [u8]) -> HokrundAnswer
    ensures { (list.new, result) ≡ load_call job b segment.now list.old }
{
    if !job.is_job() {
        return job.refused();
    }
    let mut called = Job::from(&job);
    let outcome = load::load(&mut called, b, segment, list);
    HokrundAnswer::new(&called, outcome)
}

pub fn hokrund_sweep(job: HokrundJob, j: u32, segment: &mut [u8], list: &[u8]) -> HokrundAnswer
    ensures { (segment.new, result) ≡ sweep_call job j segment.old list.now }
{
    if !job.is_job() {
        return job.refused();
    }
    let mut called = Job::from(&job);
    let outcome = sweep::sweep::sweep(&mut called, j, segment, list);
    HokrundAnswer::new(&called, outcome)
}

// What start and length say is the part itself.
pub fn hokrund_look(job: HokrundJob, j: u32, log: &[u32]) -> HokrundLook
    ensures { (take result.length (drop result.start log.now), result) ≡ look_call job j log.now }
{
    if !job.is_job() {
        return HokrundLook::refused(Refusal::Incoherent);
    }
    match look::look(&Job::from(&job), j, log) {
        Ok(part) => HokrundLook {
            refusal: 0,
            start: (j as usize) * (job.room as usize),
            length: part.len(),
        },
        Err(refusal) => HokrundLook::refused(refusal),
    }
}

pub fn hokrund_close(job: HokrundJob, way: u8) -> HokrundAnswer
    ensures { result ≡ close_call job way }
{
    if !job.is_job() {
        return job.refused();
    }
    let mut called = Job::from(&job);
    let outcome = close::close::close(&mut called, mirror::way_of(way));
    HokrundAnswer::new(&called, outcome)
}
