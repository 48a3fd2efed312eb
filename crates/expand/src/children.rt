// The children of a stack.
ghost use Rattle.std.specs.Prelude.{◌++◌, ◌≡◌, ◌-◌, ◌<◌, length, replicate};
ghost use Rattle.search.specs.Expand.{children_of};
ghost use Rattle.stacks.specs.Stack.{stack_count};
ghost use Rattle.stacks.specs.Turn.{turns_in};
ghost use Rattle.perm.specs.Moves.{most_moves};
ghost use Rattle.perm.specs.Panes.{kind_of};

use perm::groups::{MOST_MOVES, TurnSet};

// The indexes of the children of the stack at an index, by rising k, and zeros after them: there is no heap, so the caller lends on the front
// of the array that has them.
pub(crate) fn children_of(set: TurnSet, index: u32) -> [u32; MOST_MOVES]
    requires { index < stack_count (kind_of set.panes) set.panes.n }
    ensures { result ≡ children_of (kind_of set.panes) set.panes.n (turns_in (kind_of set.panes) set.panes.n set.groups) index
        ++ replicate (most_moves - length (turns_in (kind_of set.panes) set.panes.n set.groups)) 0 }
{
    let stack = set.panes.unrank(index);
    let mut children = [0u32; MOST_MOVES];
    for (i, k) in set.turns().enumerate() {
        children[i] = set.panes.rank_moved(&stack, index, k);
    }
    children
}
