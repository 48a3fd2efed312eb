// Moves of a kind and n. Each is the turn of its number, and this layer is all that knows: what is above asks for moves, and the leaves below
// turn and rank the group.
ghost use Rattle.std.specs.Prelude.{true, ◌≡◌};
ghost use Rattle.perm.specs.Panes.{kind_of};
ghost use Rattle.stacks.specs.Index.{rank_of};
ghost use Rattle.stacks.specs.Stack.{is_stack};
ghost use Rattle.stacks.specs.Turn.{is_turn, move_of};

use crate::panes::Panes;
use stacks::PLACES;

impl Panes {
    // Move k of a stack.
    pub fn moved(self, stack: [i8; PLACES], k: u8) -> [i8; PLACES]
        requires { (is_stack (kind_of self) self.n stack ≡ true) × (is_turn (kind_of self) self.n k ≡ true) }
        ensures { result ≡ move_of (kind_of self) self.n k stack }
    {
        self.turned(stack, k)
    }

    // The index of a stack after move k.
    pub fn rank_moved(self, stack: &[i8; PLACES], index: u32, k: u8) -> u32
        requires { (is_stack (kind_of self) self.n stack.now ≡ true) × (is_turn (kind_of self) self.n k ≡ true)
            × (index ≡ rank_of (kind_of self) self.n stack.now) }
        ensures { result ≡ rank_of (kind_of self) self.n (move_of (kind_of self) self.n k stack.now) }
    {
        self.rank_turned(stack, index, k)
    }
}
