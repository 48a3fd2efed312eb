// Leaves on one place of a stack. All signed arithmetic is here: above, a place is a magnitude and a coat bit.
ghost use Rattle.std.specs.Prelude.{◌≡◌, ◌≤◌, nat_abs};
ghost use Rattle.stacks.specs.Index.{coat, pane_with};
ghost use Rattle.stacks.specs.Turn.{flip};
ghost use Rattle.stacks.specs.Stack.{stack_places};
ghost use Rattle.perm.specs.Kinds.{number_of};

use crate::kind::Kind;

// The pane's number.
pub(crate) fn magnitude(x: i8) -> u32
    ensures { result ≡ nat_abs x }
{
    x.unsigned_abs() as u32
}

// 1 for coat down: by cases, as `coat` of the definitions is.
pub(crate) fn coat_bit(x: i8) -> u32
    ensures { result ≡ coat x }
{
    if x < 0 { 1 } else { 0 }
}

impl Kind {
    // What a turn does to a pane of its group.
    pub(crate) fn flipped(self, x: i8) -> i8
        requires { nat_abs x ≤ stack_places }
        ensures { result ≡ flip (number_of self) x }
    {
        match self {
            Kind::Plain => x,
            Kind::Coated => -x,
        }
    }
}

// Pane x, coat down where the bit is 1.
pub(crate) fn pane_with(x: u32, bit: u32) -> i8
    requires { x ≤ stack_places }
    ensures { result ≡ pane_with x bit }
{
    let up = x as i8;
    if bit == 0 { up } else { -up }
}
