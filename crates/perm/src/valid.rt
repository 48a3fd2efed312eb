// Whether twelve places are a stack.
ghost use Rattle.std.specs.Prelude.{◌||◌, [], ◌≡◌, ◌≤◌, drop};
ghost use Rattle.std.specs.Int.Signed.{non_neg};
ghost use Rattle.base.specs.Words.{all};
ghost use Rattle.perm.specs.Kinds.{number_of};
ghost use Rattle.perm.specs.Panes.{kind_of};
ghost use Rattle.stacks.specs.Stack.{stack_places, is_stack, is_coated, each_once, order_of, is_unused};

use crate::kind::Kind;
use crate::panes::Panes;
use crate::{place, set};
use stacks::PLACES;

// n panes, 1 to n, each once: a pane that the set has already is there twice.
fn has_panes(n: u8, stack: [i8; PLACES]) -> bool
    requires { n ≤ stack_places }
    ensures { result ≡ each_once n [] (order_of n stack) }
{
    let mut met: u32 = 0;
    for x in &stack[..n as usize] {
        let pane = place::magnitude(*x);
        if !set::is_new(n, met, pane) {
            return false;
        }
        met += 1 << (pane - 1);
    }
    true
}

fn unused_below(n: u8, stack: [i8; PLACES]) -> bool
    requires { n ≤ stack_places }
    ensures { result ≡ all is_unused (drop n stack) }
{
    stack[n as usize..].iter().all(|x| *x == 0)
}

impl Kind {
    // A plain pane has no coat.
    #[tactic(auto, unfolding(stacks::specs::Stack::is_coated))]
    fn coats_fit(self, stack: [i8; PLACES]) -> bool
        ensures { result ≡ (is_coated (number_of self) || all non_neg stack) }
    {
        match self {
            Kind::Plain => stack.iter().all(|x| *x >= 0),
            Kind::Coated => true,
        }
    }
}

impl Panes {
    #[tactic(auto, unfolding(stacks::specs::Stack::is_stack))]
    pub fn is_stack(self, stack: [i8; PLACES]) -> bool
        ensures { result ≡ is_stack (kind_of self) self.n stack }
    {
        has_panes(self.n, stack) && self.kind.coats_fit(stack) && unused_below(self.n, stack)
    }
}

// By numbers: a kind may be any, and all but 1 count as plain, as in the definition.
#[tactic(auto, unfolding(stacks::specs::Stack::is_stack))]
pub fn is_stack(kind: u8, n: u8, stack: [i8; PLACES]) -> bool
    requires { n ≤ stack_places }
    ensures { result ≡ is_stack kind n stack }
{
    has_panes(n, stack) && Kind::like(kind).coats_fit(stack) && unused_below(n, stack)
}
