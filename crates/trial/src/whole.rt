// Build the whole table for a check, in the front of lent buffers. A kind is a number, as the operations take one: any may be asked.
use crate::frame::Frame;
use perm::operations;
use search::{COUNT_PLACES, Job, Terms};
use stacks::{PLACES, Refusal};
use twobit::segment;

// C of every build: the smallest.
const ROOM: u32 = 16;

// The ordered stack, the first of all; no stack where there is none.
pub fn ordered(kind: u8, n: u8) -> [i8; PLACES] {
    operations::stack_at_index(kind, n, 0).unwrap_or([0; PLACES])
}

// G; 0 where S is.
pub fn segments_for(stacks: u32, size: u32) -> u32 {
    if size == 0 {
        return 0;
    }
    segment::segment_count(stacks, size)
}

// A build of so many stacks. Where a buffer is shorter than its part should be, all of it is lent, and refused.
pub fn build(
    kind: u8,
    n: u8,
    wanted: [i8; PLACES],
    groups: u32,
    stacks: u32,
    size: u32,
    table: &mut [u8],
    log: &mut [u32],
    list: &mut [u8],
) -> Result<Job, Refusal> {
    let largest = size.min(stacks) as usize;
    let bytes = (stacks as usize).div_ceil(4).min(table.len());
    let words = (segments_for(stacks, size) as usize * ROOM as usize).min(log.len());
    let listed = largest.div_ceil(8).min(list.len());
    let terms = Terms {
        kind,
        n,
        wanted,
        groups,
        size,
        room: ROOM,
    };
    build::build::build_table(
        terms,
        &mut table[..bytes],
        &mut log[..words],
        &mut list[..listed],
    )
}

impl Frame {
    pub fn ordered(self) -> [i8; PLACES] {
        ordered(self.kind.into(), self.n)
    }

    pub fn build(
        self,
        wanted: [i8; PLACES],
        stacks: u32,
        size: u32,
        table: &mut [u8],
        log: &mut [u32],
        list: &mut [u8],
    ) -> Result<Job, Refusal> {
        build(
            self.kind.into(),
            self.n,
            wanted,
            self.groups,
            stacks,
            size,
            table,
            log,
            list,
        )
    }
}

// How many stacks were counted, all levels together.
pub fn total(counts: &[u64; COUNT_PLACES]) -> u64 {
    counts
        .iter()
        .fold(0, |sum: u64, &count| sum.wrapping_add(count))
}
