// The factorials of as many panes as a stack has places.
ghost use Rattle.std.specs.Prelude.{◌≡◌, ◌≤◌};
ghost use Rattle.base.specs.Words.{fact};
ghost use Rattle.stacks.specs.Stack.{stack_places};

use stacks::PLACES;

static FACTORIALS: [u32; PLACES + 1] = [
    1, 1, 2, 6, 24, 120, 720, 5040, 40320, 362880, 3628800, 39916800, 479001600,
];

pub(crate) fn factorial(n: u32) -> u32
    requires { n ≤ stack_places }
    ensures { result ≡ fact n }
{
    FACTORIALS[n as usize]
}
