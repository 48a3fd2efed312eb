// Begin, and the calls on a job.
ghost use Rattle.std.specs.Prelude.{◌≡◌, take, drop};
ghost use Rattle.search.specs.Begin.{begin_of};
ghost use Rattle.search.specs.Terms.{terms_of};
ghost use Rattle.mirror.specs.Mirror.{answer_of};
ghost use Rattle.hokrund.specs.Calls.{blank_call, expand_call, settle_call, load_call, sweep_call, look_call, close_call};

use hokrund::job_calls;
use mirror::{HokrundAnswer, HokrundExpanded, HokrundJob, HokrundLook, HokrundStack};

#[unsafe(no_mangle)]
pub extern "C" fn hokrund_begin(
    kind: u8,
    n: u8,
    wanted: HokrundStack,
    groups: u32,
    size: u32,
    room: u32,
) -> HokrundAnswer
    ensures { result ≡ answer_of (begin_of (terms_of kind n wanted.places groups size room)) }
{
    job_calls::hokrund_begin(kind, n, wanted, groups, size, room)
}

#[unsafe(no_mangle)]
pub extern "C" fn hokrund_blank(job: HokrundJob, j: u32, segment: &mut [u8]) -> HokrundAnswer
    ensures { (segment.new, result) ≡ blank_call job j segment.old }
{
    job_calls::hokrund_blank(job, j, segment)
}

#[unsafe(no_mangle)]
pub extern "C" fn hokrund_expand(
    job: HokrundJob,
    j: u32,
    segment: &mut [u8],
    log: &mut [u32],
) -> HokrundExpanded
    ensures { (segment.new, log.new, result) ≡ expand_call job j segment.old log.old }
{
    job_calls::hokrund_expand(job, j, segment, log)
}

#[unsafe(no_mangle)]
pub extern "C" fn hokrund_settle(
    job: HokrundJob,
    j: u32,
    segment: &mut [u8],
    log: &[u32],
) -> HokrundAnswer
    ensures { (segment.new, result) ≡ settle_call job j segment.old log.now }
{
    job_calls::hokrund_settle(job, j, segment, log)
}

#[unsafe(no_mangle)]
pub extern "C" fn hokrund_load(
    job: HokrundJob,
    b: u32,
    segment: &[u8],
    list: &mut [u8],
) -> HokrundAnswer
    ensures { (list.new, result) ≡ load_call job b segment.now list.old }
{
    job_calls::hokrund_load(job, b, segment, list)
}

#[unsafe(no_mangle)]
pub extern "C" fn hokrund_sweep(
    job: HokrundJob,
    j: u32,
    segment: &mut [u8],
    list: &[u8],
) -> HokrundAnswer
    ensures { (segment.new, result) ≡ sweep_call job j segment.old list.now }
{
    job_calls::hokrund_sweep(job, j, segment, list)
}

#[unsafe(no_mangle)]
pub extern "C" fn hokrund_look(job: HokrundJob, j: u32, log: &[u32]) -> HokrundLook
    ensures { (take result.length (drop result.start log.now), result) ≡ look_call job j log.now }
{
    job_calls::hokrund_look(job, j, log)
}

#[unsafe(no_mangle)]
pub extern "C" fn hokrund_close(job: HokrundJob, way: u8) -> HokrundAnswer
    ensures { result ≡ close_call job way }
{
    job_calls::hokrund_close(job, way)
}
