// Marking a stack of a segment, and counting it: the one place that every call which finds stacks marks and counts through.
ghost use Rattle.std.specs.Prelude.{◌≡◌, set};
ghost use Rattle.twobit.specs.Mark.{found_in, MarkFits, MarksStack};

use crate::entry;
use search::{COUNT_PLACES, Found};

// What a level has found so far, by a job's counts: they are taken here alone, and go back by put_found alone.
pub fn found_at(counts: &[u64; COUNT_PLACES], level: u8) -> Found
    ensures { result ≡ found_in counts.now level }
{
    Found {
        count: counts[level as usize],
    }
}

pub fn put_found(counts: &mut [u64; COUNT_PLACES], level: u8, found: Found)
    ensures { counts.new ≡ set counts.old level found.count }
{
    counts[level as usize] = found.count;
}

// The stack at an index, which has this offset in its segment, gets the label and is counted where it is unseen. The index is given with the
// offset, because whatever else a level counts of a stack follows from it.
pub fn mark_stack(segment: &mut [u8], index: u32, offset: u32, label: u8, found: Found) -> Found
    requires { MarkFits segment.old offset label found }
    ensures { MarksStack segment.old index offset label found segment.new result }
{
    if entry::mark(segment, offset, label) {
        Found {
            count: found.count + 1,
        }
    } else {
        found
    }
}
