// A run of Expand over the stacks of a segment.
ghost use Rattle.std.specs.Prelude.{◌≡◌, ◌/◌, ◌<◌, length};
ghost use Rattle.search.specs.Entries.{entry_at};
ghost use Rattle.expand.specs.Scan.{RunFits, Runs, SameLent};

use crate::place::Running;
use crate::scan::Scan;
use crate::{children, logs};
use twobit::entry;

// How far a call came: the first stack not passed, and the segment that it waits for before that stack, if it waits.
#[derive(Clone, Copy)]
pub(crate) struct Reached {
    pub at: u32,
    pub waits_for: Option<u32>,
}

impl<'a> Running<'a> {
    // The entry of a stack of the segment.
    fn entry(&self, at: u32) -> u8
        requires { at / 4 < length self.now.segment.now }
        ensures { result ≡ entry_at self.now.segment.now at }
    {
        entry::get_entry(self.segment, at)
    }

    // From the first stack not passed to the last, or to the first whose children lack room.
    pub(crate) fn run(&mut self, scan: Scan, first: u32, stacks: u32) -> Reached
        requires { RunFits scan first stacks self.old }
        ensures same { SameLent self.old self.new }
        ensures ran { Runs scan first stacks self.old self.new result }
    {
        let base = scan.j * scan.size;
        for at in first..stacks {
            if self.entry(at) == scan.from {
                let children = children::children_of(scan.set, base + at);
                let children = &children[..scan.turns as usize];
                if let Some(full) = logs::full_segment(scan, children, self.waiting) {
                    return Reached {
                        at,
                        waits_for: Some(full),
                    };
                }
                self.place_all(scan, children);
            }
        }
        Reached {
            at: stacks,
            waits_for: None,
        }
    }
}
