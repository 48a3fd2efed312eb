// Document 01's edges that are not starred, one a line: level counts, and the limits of n, of S, of the count of segments and of C; then the
// published diameters. Every other limit and refusal is held by the tests from outside.
#![tactic(auto)]

mod diameters;

use calls::blank;
use job::begin;
use perm::operations;
use search::{Job, Terms};
use std::io;
use trial::frame::{Frame, Verdict};
use trial::whole;

// The first six counts of a build in segments of 4 stacks, and all counts together.
fn levels(out: &impl Print, frame: Frame, stacks: u32) -> io::Result<()> {
    let mut table = [0; 30];
    let mut log = [0; 480];
    let mut list = [0; 1];
    let wanted = frame.ordered();
    match frame.build(wanted, stacks, 4, &mut table, &mut log, &mut list) {
        Ok(job) => {
            let [a, b, c, d, e, f] = [
                job.counts[0],
                job.counts[1],
                job.counts[2],
                job.counts[3],
                job.counts[4],
                job.counts[5],
            ];
            println!(out;
                "{frame} accepted deepest {} counts {a} {b} {c} {d} {e} {f} stacks {}",
                job.phase.level(),
                whole::total(&job.counts),
            )
        }
        Err(refusal) => println!(out; "{frame} {}", Verdict(Err(refusal))),
    }
}

// Index of the ordered stack. Where there is none, n is refused before the places are looked at.
fn panes(out: &impl Print, frame: Frame) -> io::Result<()> {
    let indexed = operations::index_of_stack(frame.kind.into(), frame.n, frame.ordered());
    println!(out; "{frame} {}", Verdict(indexed.map(|_| ())))
}

// A segment that is lent no byte: refused for its length where the job has it, else for its number.
fn blanked(mut job: Job, j: u32) -> Verdict {
    Verdict(blank::blank(&mut job, j, &mut []))
}

// Begin for the ordered stack and every turn, and the segments on both sides of the last.
fn begins(out: &impl Print, frame: Frame, stacks: u32, size: u32, room: u32) -> io::Result<()> {
    let begun = begin::begin(Terms {
        kind: frame.kind.into(),
        n: frame.n,
        wanted: frame.ordered(),
        groups: frame.groups,
        size,
        room,
    });
    let segments = whole::segments_for(stacks, size);
    print!(out;
        "{frame} S {size} C {room} segments {segments} {}",
        Verdict(begun.map(|_| ()))
    )?;
    if let Ok(job) = begun
        && segments > 0
    {
        let last = segments - 1;
        print!(out;
            " segment {last} {} segment {segments} {}",
            blanked(job, last),
            blanked(job, segments)
        )?;
    }
    println!(out;)
}

fn main(rt: HostRuntime) -> io::Result<()> {
    let out = rt.stdout();
    levels(&out, Frame::plain(4, 14), 24)?;
    levels(&out, Frame::plain(5, 30), 120)?;
    panes(&out, Frame::plain(12, 0))?;
    panes(&out, Frame::plain(13, 0))?;
    panes(&out, Frame::coated(10, 0))?;
    panes(&out, Frame::coated(11, 0))?;
    begins(&out, Frame::plain(3, 6), 6, 4, 16)?;
    begins(&out, Frame::plain(3, 6), 6, 6, 16)?;
    begins(&out, Frame::plain(6, 62), 720, 12, 16)?;
    begins(&out, Frame::plain(6, 62), 720, 8, 16)?;
    begins(&out, Frame::plain(3, 6), 6, 4, 15)?;
    diameters::lines(&out)
}
