// Begin, and the calls on a job.
ghost use Rattle.std.specs.Prelude.{take, drop};
ghost use Rattle.exports.specs.Outcomes.{Begins, Blanks, Expands, Settles, Loads, Sweeps, Looks, Closes};

use hokrund::job_calls;
use mirror::{HokrundAnswer, HokrundExpanded, HokrundJob, HokrundLook, HokrundStack};

pub fn begin(
    kind: u8,
    n: u8,
    wanted: HokrundStack,
    groups: u32,
    size: u32,
    room: u32,
) -> HokrundAnswer
    ensures { Begins kind n wanted groups size room result }
{
    job_calls::hokrund_begin(kind, n, wanted, groups, size, room)
}

pub fn blank(job: HokrundJob, j: u32, segment: &mut [u8]) -> HokrundAnswer
    ensures { Blanks job j segment.old (segment.new, result) }
{
    job_calls::hokrund_blank(job, j, segment)
}

pub fn expand(job: HokrundJob, j: u32, segment: &mut [u8], log: &mut [u32]) -> HokrundExpanded
    ensures { Expands job j segment.old log.old (segment.new, log.new, result) }
{
    job_calls::hokrund_expand(job, j, segment, log)
}

pub fn settle(job: HokrundJob, j: u32, segment: &mut [u8], log: &[u32]) -> HokrundAnswer
    ensures { Settles job j segment.old log.now (segment.new, result) }
{
    job_calls::hokrund_settle(job, j, segment, log)
}

pub fn load(job: HokrundJob, b: u32, segment: &[u8], list: &mut [u8]) -> HokrundAnswer
    ensures { Loads job b segment.now list.old (list.new, result) }
{
    job_calls::hokrund_load(job, b, segment, list)
}

pub fn sweep(job: HokrundJob, j: u32, segment: &mut [u8], list: &[u8]) -> HokrundAnswer
    ensures { Sweeps job j segment.old list.now (segment.new, result) }
{
    job_calls::hokrund_sweep(job, j, segment, list)
}

pub fn look(job: HokrundJob, j: u32, log: &[u32]) -> HokrundLook
    ensures { Looks job j log.now (take result.length (drop result.start log.now), result) }
{
    job_calls::hokrund_look(job, j, log)
}

pub fn close(job: HokrundJob, way: u8) -> HokrundAnswer
    ensures { Closes job way result }
{
    job_calls::hokrund_close(job, way)
}
