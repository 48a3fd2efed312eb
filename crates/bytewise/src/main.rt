// A plain breadth-first search on one byte a stack, compared with the library: how each build ends, each entry, each level count, and the
// plans. Other orders of the segments and other ways of the levels are held by the tests from outside.
#![tactic(auto)]

ghost use Rattle.std.specs.Prelude.{◌≤◌};

mod breadth;
mod compare;
mod stack;

use breadth::UNSEEN;
use search::{COUNT_PLACES, Job};
use stacks::Refusal;
use std::io;
use trial::frame::Frame;
use trial::whole;

// Over some builds: the deepest level and the stacks with a road by the search, and how many builds and stacks were compared and how many answers
// differ.
#[derive(Clone, Copy, Default)]
struct Tally {
    deepest: u64,
    roads: u64,
    builds: u64,
    entries: u64,
    differ: u64,
}

impl Tally {
    fn and(self, other: Tally) -> Tally {
        Tally {
            deepest: self.deepest.max(other.deepest),
            roads: self.roads.wrapping_add(other.roads),
            builds: self.builds.wrapping_add(other.builds),
            entries: self.entries.wrapping_add(other.entries),
            differ: self.differ.wrapping_add(other.differ),
        }
    }
}

// Searches the bytes, and compares with the build of that table, with the plans from every step-th stack.
fn searched(
    frame: Frame,
    goal: usize,
    built: &Result<Job, Refusal>,
    step: usize,
    table: &[u8],
    bytes: &mut [u8],
) -> Tally
    requires { (frame.n ≤ 12) × (1 ≤ step) }
{
    let found = breadth::search(frame, bytes, goal);
    let kept = match built {
        Ok(job) => job.counts,
        Err(_) => [0; COUNT_PLACES],
    };
    let ends = u64::from(compare::build_differs(built, &found));
    let levels = compare::counts(&found.counts, &kept);
    let others = compare::stacks(frame, goal, table, bytes, step);
    Tally {
        deepest: found.deepest as u64,
        roads: whole::total(&found.counts),
        builds: 1,
        entries: bytes.len() as u64,
        differ: others.wrapping_add(levels).wrapping_add(ends),
    }
}

// The same on as much of the table and of the bytes as so many stacks take.
fn searched_in(
    frame: Frame,
    goal: usize,
    built: &Result<Job, Refusal>,
    step: usize,
    stacks: u32,
    table: &[u8],
    bytes: &mut [u8],
) -> Tally
    requires { (frame.n ≤ 12) × (1 ≤ step) }
{
    let all = stacks as usize;
    let quarter = all.div_ceil(4);
    if quarter > table.len() || all > bytes.len() {
        return Tally::default();
    }
    searched(
        frame,
        goal,
        built,
        step,
        &table[..quarter],
        &mut bytes[..all],
    )
}

// A build of so many stacks to the one at index goal, beside the search.
fn compared(frame: Frame, stacks: u32, goal: usize, size: u32, step: usize) -> Tally {
    if frame.n > 12 || step < 1 {
        return Tally::default();
    }
    let mut table = [0; 161280];
    let mut log = [0; 1024];
    let mut list = [0; 80640];
    let mut bytes = [UNSEEN; 645120];
    let wanted = stack::places(&stack::unrank(frame.kind, frame.n as usize, goal));
    let built = frame.build(wanted, stacks, size, &mut table, &mut log, &mut list);
    searched_in(frame, goal, &built, step, stacks, &table, &mut bytes)
}

// Builds to every stack.
fn each(frame: Frame, stacks: u32, size: u32) -> Tally {
    let mut sum = Tally::default();
    for goal in 0..stacks as usize {
        sum = sum.and(compared(frame, stacks, goal, size, 1));
    }
    sum
}

fn line(out: &impl Print, frame: Frame, tally: Tally) -> io::Result<()> {
    println!(out;
        "{frame} groups {} deepest {} roads {} builds {} entries {} differ {}",
        frame.groups, tally.deepest, tally.roads, tally.builds, tally.entries, tally.differ,
    )
}

// With the plans from every stack.
fn small(out: &impl Print, frame: Frame, stacks: u32, goal: usize, size: u32) -> io::Result<()> {
    line(out, frame, compared(frame, stacks, goal, size, 1))
}

// With the plans from every 31st stack.
fn large(out: &impl Print, frame: Frame, stacks: u32, goal: usize, size: u32) -> io::Result<()> {
    line(out, frame, compared(frame, stacks, goal, size, 31))
}

fn all_turns(out: &impl Print) -> io::Result<()> {
    small(out, Frame::plain(1, 0), 1, 0, 4)?;
    small(out, Frame::plain(6, 62), 720, 433, 12)?;
    small(out, Frame::plain(7, 126), 5040, 4321, 1000)?;
    small(out, Frame::coated(1, 1), 2, 1, 4)?;
    small(out, Frame::coated(4, 15), 384, 383, 100)?;
    small(out, Frame::coated(5, 31), 3840, 0, 60)
}

// Every set of plain 4 and of coated 3, to every wanted stack.
fn each_set(out: &impl Print) -> io::Result<()> {
    for sizes in 1..8 {
        let plain = Frame::plain(4, 2 * sizes);
        let coated = Frame::coated(3, sizes);
        line(out, plain, each(plain, 24, 4))?;
        line(out, coated, each(coated, 48, 20))?;
    }
    Ok(())
}

// Sets by which the deepest level is above 31. By the second, half of the stacks have no road.
fn deep(out: &impl Print) -> io::Result<()> {
    large(out, Frame::plain(9, 322), 362880, 0, 30240)?;
    large(out, Frame::plain(9, 280), 362880, 100000, 60480)?;
    large(out, Frame::coated(7, 82), 645120, 300000, 64512)
}

fn main(rt: HostRuntime) -> io::Result<()> {
    let out = rt.stdout();
    all_turns(&out)?;
    each_set(&out)?;
    deep(&out)
}
