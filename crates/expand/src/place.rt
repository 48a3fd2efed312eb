// What a call changes, and a stack's children, each to its place: marked in this segment, or logged for another.
ghost use Rattle.expand.specs.Scan.{ChildFits, ChildrenFit, PlacesChild, PlacesAll, SameLent};

use crate::logs;
use crate::scan::Scan;
use search::{Found, SEGMENT_LIMIT};
use twobit::marking;

// What a call is lent, and what its level has found.
#[derive(Drop)]
pub(crate) struct Running<'a> {
    pub segment: &'a mut [u8],
    pub log: &'a mut [u32],
    pub waiting: &'a mut [u32; SEGMENT_LIMIT],
    pub found: Found,
}

impl<'a> Running<'a> {
    // A child of this segment is marked and counted if it is unseen; a child elsewhere is appended to its segment's log, seen or not.
    fn place_child(&mut self, scan: Scan, child: u32)
        requires { ChildFits scan child self.old }
        ensures same { SameLent self.old self.new }
        ensures placed { PlacesChild scan child self.old self.new }
    {
        let t = child / scan.size;
        let offset = child % scan.size;
        if t == scan.j {
            self.found = marking::mark_stack(self.segment, child, offset, scan.mark, self.found);
            return;
        }
        let start = (t as usize) * (scan.room as usize);
        let at = self.waiting[t as usize];
        logs::append(&mut self.log[start..], at as usize, offset);
        self.waiting[t as usize] = at + 1;
    }

    // Each child of a stack, by rising k. There is room for them all.
    pub(crate) fn place_all(&mut self, scan: Scan, children: &[u32])
        requires { ChildrenFit scan children.now self.old }
        ensures same { SameLent self.old self.new }
        ensures placed { PlacesAll scan children.now self.old self.new }
    {
        for &child in children {
            self.place_child(scan, child);
        }
    }
}
