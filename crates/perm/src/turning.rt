// Turning a group.
ghost use Rattle.std.specs.Prelude.{true, ◌≡◌, ◌≤◌};
ghost use Rattle.stacks.specs.Stack.{is_stack};
ghost use Rattle.stacks.specs.Turn.{turn_of};
ghost use Rattle.perm.specs.Panes.{kind_of};

use crate::panes::Panes;
use stacks::PLACES;

impl Panes {
    // Turn k of a stack: the top k panes in reverse order, each flipped.
    pub(crate) fn turned(self, stack: [i8; PLACES], k: u8) -> [i8; PLACES]
        requires { (is_stack (kind_of self) self.n stack ≡ true) × (k ≤ self.n) }
        ensures { result ≡ turn_of (kind_of self) k stack }
    {
        let mut next = stack;
        let group = &mut next[..k as usize];
        group.reverse();
        for x in group {
            *x = self.kind.flipped(*x);
        }
        next
    }
}
