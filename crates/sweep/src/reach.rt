// The search of one stack: whether a turn leads it to a changed stack of the loaded segment.
ghost use Rattle.std.specs.Prelude.{◌≡◌};
ghost use Rattle.search.specs.Sweep.{is_changed};
ghost use Rattle.sweep.specs.Reach.{BitFits, ReachFits, reached_by};

use perm::groups::TurnSet;
use twobit::list;

// What a call does not change: the job's fields that it needs, the segment that it sweeps, the loaded one, and this level's entry.
#[derive(Clone, Copy)]
pub(crate) struct Pair {
    pub set: TurnSet,
    pub size: u32,
    pub j: u32,
    pub b: u32,
    pub mark: u8,
}

impl Pair {
    // Only the stacks of segment b have bits in the list.
    #[tactic(auto, unfolding(search::specs::Sweep::is_changed))]
    fn is_changed(self, list: &[u8], child: u32) -> bool
        requires { BitFits self.size self.b list.now child }
        ensures { result ≡ is_changed self.size self.b list.now child }
    {
        child / self.size == self.b && list::get_bit(list, child % self.size)
    }

    // The first turn of the set that leads to a changed stack ends the search.
    pub(crate) fn is_reached(self, list: &[u8], index: u32) -> bool
        requires { ReachFits self list.now index }
        ensures { result ≡ reached_by self list.now index }
    {
        let stack = self.set.panes.unrank(index);
        for k in self.set.turns() {
            let child = self.set.panes.rank_moved(&stack, index, k);
            if self.is_changed(list, child) {
                return true;
            }
        }
        false
    }
}
