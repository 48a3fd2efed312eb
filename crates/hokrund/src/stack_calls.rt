// Index of a stack, Stack at an index and Turn.
ghost use Rattle.std.specs.Prelude.{◌≡◌};
ghost use Rattle.stacks.specs.Operations.{index_of, stack_of, turned_of};
ghost use Rattle.mirror.specs.Mirror.{indexed_of, stacked_of};

use mirror::{HokrundIndexed, HokrundStack, HokrundStacked};
use perm::operations;

pub fn hokrund_index_of_stack(kind: u8, n: u8, stack: HokrundStack) -> HokrundIndexed
    ensures { result ≡ indexed_of (index_of kind n stack.places) }
{
    operations::index_of_stack(kind, n, stack.places).into()
}

pub fn hokrund_stack_at_index(kind: u8, n: u8, index: u32) -> HokrundStacked
    ensures { result ≡ stacked_of (stack_of kind n index) }
{
    operations::stack_at_index(kind, n, index).into()
}

pub fn hokrund_turn(kind: u8, n: u8, stack: HokrundStack, k: u8) -> HokrundStacked
    ensures { result ≡ stacked_of (turned_of kind n stack.places k) }
{
    operations::turn(kind, n, stack.places, k).into()
}
