// A run of Sweep over the stacks of a segment.
ghost use Rattle.sweep.specs.Reach.{RunFits, Sweeps};
ghost use Rattle.twobit.specs.Mark.{marks_of};

use crate::reach::Pair;
use search::Found;
use twobit::entry::UNSEEN;
use twobit::{entry, marking};

// Each unseen stack that a turn leads to a changed one is marked and counted. A seen one is not even unranked.
pub(crate) fn sweep_run(
    pair: Pair,
    stacks: u32,
    from_found: Found,
    segment: &mut [u8],
    list: &[u8],
) -> Found
    requires { RunFits pair stacks from_found segment.old list.now }
    ensures { Sweeps pair stacks list.now (marks_of segment.old from_found) (marks_of segment.new result) }
{
    let base = pair.j * pair.size;
    let mut found = from_found;
    for at in 0..stacks {
        let index = base + at;
        if entry::get_entry(segment, at) == UNSEEN && pair.is_reached(list, index) {
            found = marking::mark_stack(segment, index, at, pair.mark, found);
        }
    }
    found
}
