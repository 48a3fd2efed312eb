// Calls on one segment, each lent that segment's part of the whole table, and Load and Sweep the front of the changed list.
ghost use Rattle.std.specs.Prelude.{true, ◌≡◌, ◌≤◌, ◌<◌, length};
ghost use Rattle.search.specs.Changed.{list_bytes};
ghost use Rattle.search.specs.Drive.{list_bytes_at};
ghost use Rattle.search.specs.JobState.{is_coherent, segment_count_of, stack_count_at};
ghost use Rattle.search.specs.Results.{as_answer, as_expanded};
ghost use Rattle.build.specs.Part.{LiesAt, PartFits, blanked_in, settled_in, expanded_in, loaded_in, swept_in};

use calls::{blank, load, settle};
use job::geometry;
use search::Job;
use stacks::Refusal;
use std::ops::Range;
use twobit::{list, segment};

// Where segment j lies in the table. Every segment before it is full.
#[tactic(auto, using(job::proofs::Bounds::coherent_rows))]
fn part_of(job: &Job, j: u32) -> Range<usize>
    requires { (is_coherent job.now ≡ true) × (j < segment_count_of job.now) }
    ensures { LiesAt job.now j result.start result.end }
{
    let start = j as usize * (job.terms.size / 4) as usize;
    let stacks = geometry::stack_count_at(job.terms, j);
    start..start + segment::bytes_for(stacks) as usize
}

// Where the changed list of segment b ends.
#[tactic(auto, using(job::proofs::Bounds::coherent_rows))]
fn list_end(job: &Job, b: u32) -> usize
    requires { is_coherent job.now ≡ true }
    ensures { (result ≡ list_bytes_at job.now b) × (result ≤ list_bytes (stack_count_at job.now 0)) }
{
    let stacks = geometry::stack_count_at(job.terms, b);
    list::list_bytes(stacks) as usize
}

pub(crate) fn blank_part(job: &mut Job, j: u32, table: &mut [u8]) -> Result<(), Refusal>
    requires { PartFits job.old j table.old }
    ensures { (table.new, as_answer job.new result) ≡ blanked_in job.old j table.old }
{
    let part = part_of(job, j);
    blank::blank(job, j, &mut table[part])
}

pub(crate) fn settle_part(
    job: &mut Job,
    j: u32,
    table: &mut [u8],
    log: &[u32],
) -> Result<(), Refusal>
    requires { PartFits job.old j table.old }
    ensures { (table.new, as_answer job.new result) ≡ settled_in job.old j table.old log.now }
{
    let part = part_of(job, j);
    settle::settle(job, j, &mut table[part], log)
}

pub(crate) fn expand_part(
    job: &mut Job,
    j: u32,
    table: &mut [u8],
    log: &mut [u32],
) -> Result<Option<u32>, Refusal>
    requires { PartFits job.old j table.old }
    ensures { (table.new, log.new, as_expanded job.new result) ≡ expanded_in job.old j table.old log.old }
{
    let part = part_of(job, j);
    expand::expand::expand(job, j, &mut table[part], log)
}

pub(crate) fn load_part(job: &mut Job, b: u32, table: &[u8], list: &mut [u8]) -> Result<(), Refusal>
    requires { PartFits job.old b table.now × (length list.old ≡ list_bytes (stack_count_at job.old 0)) }
    ensures { (list.new, as_answer job.new result) ≡ loaded_in job.old b table.now list.old }
{
    let part = part_of(job, b);
    let front = list_end(job, b);
    load::load(job, b, &table[part], &mut list[..front])
}

// The list is that of the loaded segment.
pub(crate) fn sweep_part(
    job: &mut Job,
    j: u32,
    table: &mut [u8],
    list: &[u8],
) -> Result<(), Refusal>
    requires { PartFits job.old j table.old × (length list.now ≡ list_bytes (stack_count_at job.old 0)) }
    ensures { (table.new, as_answer job.new result) ≡ swept_in job.old j table.old list.now }
{
    let part = part_of(job, j);
    let front = list_end(job, u32::from(job.loaded));
    sweep::sweep::sweep(job, j, &mut table[part], &list[..front])
}
