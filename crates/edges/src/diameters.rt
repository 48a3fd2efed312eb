// The published diameters of the pancake graphs (source document 000, Table 1), each by a whole build in segments.
use std::io;
use trial::frame::{Frame, Verdict};
use trial::whole;

// Each build by every turn: n and its set, how many stacks, and the size of a segment.
const PLAIN: [(u8, u32, u32, u32); 11] = [
    (1, 0, 1, 4),
    (2, 2, 2, 4),
    (3, 6, 6, 4),
    (4, 14, 24, 4),
    (5, 30, 120, 4),
    (6, 62, 720, 12),
    (7, 126, 5040, 80),
    (7, 126, 5040, 5040),
    (8, 254, 40320, 640),
    (8, 254, 40320, 13440),
    (8, 254, 40320, 67108864),
];

const COATED: [(u8, u32, u32, u32); 9] = [
    (1, 1, 2, 4),
    (2, 3, 8, 4),
    (3, 7, 48, 4),
    (4, 15, 384, 8),
    (5, 31, 3840, 64),
    (5, 31, 3840, 1000),
    (6, 63, 46080, 720),
    (6, 63, 46080, 15360),
    (6, 63, 46080, 46080),
];

// A build of so many stacks to the ordered one.
fn measure(out: &impl Print, frame: Frame, stacks: u32, size: u32) -> io::Result<()> {
    let mut table = [0; 11520];
    let mut log = [0; 1024];
    let mut list = [0; 5760];
    let wanted = frame.ordered();
    let segments = whole::segments_for(stacks, size);
    match frame.build(wanted, stacks, size, &mut table, &mut log, &mut list) {
        Ok(job) => println!(out;
            "{frame} segments {segments} accepted deepest {} stacks {}",
            job.phase.level(),
            whole::total(&job.counts),
        ),
        Err(refusal) => println!(out; "{frame} segments {segments} {}", Verdict(Err(refusal))),
    }
}

pub fn lines(out: &impl Print) -> io::Result<()> {
    for (n, groups, stacks, size) in PLAIN {
        measure(out, Frame::plain(n, groups), stacks, size)?;
    }
    for (n, groups, stacks, size) in COATED {
        measure(out, Frame::coated(n, groups), stacks, size)?;
    }
    Ok(())
}
