// The log area: which segment lacks room for a stack's children, and how an offset is appended.
ghost use Rattle.std.specs.Prelude.{◌≡◌, ◌≤◌, ◌<◌, length, set, MatchOption};
ghost use Rattle.search.specs.Logs.{falling_in, lacks_room};
ghost use Rattle.expand.specs.Scan.{ScanFits, WaitingFits, first_full};

use crate::scan::Scan;
use search::SEGMENT_LIMIT;

// An offset becomes the entry at a place of a log. The log is lent from its own start on.
pub(crate) fn append(stretch: &mut [u32], at: usize, offset: u32)
    requires { at < length stretch.old }
    ensures { stretch.new ≡ set stretch.old at offset }
{
    stretch[at] = offset;
}

// How many of the children fall in segment t.
fn falling_in(size: u32, children: &[u32], t: u32) -> usize
    requires { 0 < size }
    ensures { result ≡ falling_in size t children.now }
{
    children.iter().filter(|child| **child / size == t).count()
}

// Whether more children fall in segment t than its log has free places. Where it has a place for each child, none need be counted.
fn lacks_room(scan: Scan, children: &[u32], waiting: &[u32; SEGMENT_LIMIT], t: u32) -> bool
    requires { ScanFits scan × WaitingFits scan waiting.now × (t < scan.segments) }
    ensures { result ≡ lacks_room scan.size scan.room scan.j waiting.now children.now t }
{
    let free = (scan.room - waiting[t as usize]) as usize;
    t != scan.j && free < children.len() && free < falling_in(scan.size, children, t)
}

// The lowest segment that lacks room for the children, if one does. Only a segment in which a child falls can lack room. It is a loop, as a chain
// of filter and min would test the segments above one that was found too.
pub(crate) fn full_segment(
    scan: Scan,
    children: &[u32],
    waiting: &[u32; SEGMENT_LIMIT],
) -> Option<u32>
    requires { ScanFits scan × WaitingFits scan waiting.now }
    ensures { MatchOption result
        (scan.segments ≤ first_full scan waiting.now children.now)
        (λ t. (t ≡ first_full scan waiting.now children.now) × (t < scan.segments)) }
{
    let mut lowest = scan.segments;
    for child in children {
        let t = child / scan.size;
        if t < lowest && lacks_room(scan, children, waiting, t) {
            lowest = t;
        }
    }
    (lowest < scan.segments).then_some(lowest)
}
