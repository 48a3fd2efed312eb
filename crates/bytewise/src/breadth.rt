// A plain breadth-first search by the turns of a set, one byte a stack: the fewest turns, or UNSEEN.
ghost use Rattle.std.specs.Prelude.{◌≤◌};

use crate::stack;
use trial::frame::Frame;

// What stands for a stack without a road.
pub const UNSEEN: u8 = 255;

// How many stacks each level has, and the last level that has some.
#[derive(Clone, Copy)]
pub struct Found {
    pub counts: [u64; 256],
    pub deepest: u8,
}

// Whether the stack at index i was unseen; it is marked now.
fn reach(bytes: &mut [u8], i: usize, mark: u8) -> bool {
    match bytes.get_mut(i) {
        Some(byte) if *byte == UNSEEN => {
            *byte = mark;
            true
        }
        _ => false,
    }
}

// Marks the children of the stack at index i, and answers how many were unseen.
fn spread(frame: Frame, bytes: &mut [u8], i: usize, mark: u8) -> u64
    requires { frame.n ≤ 12 }
{
    let n = frame.n as usize;
    let parent = stack::unrank(frame.kind, n, i);
    let mut found: u64 = 0;
    for k in (1..=n).rev() {
        if stack::lifts(frame.groups, k) {
            let child = stack::rank(frame.kind, n, &stack::turned(frame.kind, &parent, k));
            if reach(bytes, child, mark) {
                found = found.wrapping_add(1);
            }
        }
    }
    found
}

// Searches the level after d, and answers how many stacks it has.
fn level(frame: Frame, bytes: &mut [u8], d: u8) -> u64
    requires { (frame.n ≤ 12) × (d ≤ 253) }
{
    let mut found: u64 = 0;
    for i in 0..bytes.len() {
        if bytes[i] == d {
            found = found.wrapping_add(spread(frame, bytes, i, d + 1));
        }
    }
    found
}

// Fills the bytes, all unseen, from the stack at index goal. It ends at a level that has none.
pub fn search(frame: Frame, bytes: &mut [u8], goal: usize) -> Found
    requires { frame.n ≤ 12 }
{
    let mut counts = [0; 256];
    counts[0] = u64::from(reach(bytes, goal, 0));
    for d in 0..254u8 {
        let next = level(frame, bytes, d);
        if next == 0 {
            return Found { counts, deepest: d };
        }
        counts[d as usize + 1] = next;
    }
    Found {
        counts,
        deepest: 254,
    }
}
