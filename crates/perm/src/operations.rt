// The open operations on stacks. Each takes any values, and does its work or gives the first refusal in document 01's order.
ghost use Rattle.std.specs.Prelude.{IfOk, true, ◌≡◌};
ghost use Rattle.stacks.specs.Refusals.{refusal_of, as_indexed, as_stacked};
ghost use Rattle.stacks.specs.Operations.{kind_refusal, index_refusal, index_of, stack_of, turned_of};
ghost use Rattle.stacks.specs.Stack.{is_stack};
ghost use Rattle.perm.specs.Panes.{kind_of};

use crate::panes::Panes;
use stacks::{PLACES, Refusal};

impl Panes {
    // Of a kind's number, n and a stack of them.
    pub fn with_stack(kind: u8, n: u8, stack: [i8; PLACES]) -> Result<Panes, Refusal>
        ensures refusal { refusal_of result ≡ index_refusal kind n stack }
        ensures panes { IfOk result (λ panes. (kind_of panes ≡ kind) × (panes.n ≡ n) × (is_stack kind n stack ≡ true)) }
    {
        let panes = Panes::new(kind, n)?;
        if !panes.is_stack(stack) {
            return Err(Refusal::Stack);
        }
        Ok(panes)
    }
}

// Index of a stack.
pub fn index_of_stack(kind: u8, n: u8, stack: [i8; PLACES]) -> Result<u32, Refusal>
    ensures { as_indexed result ≡ index_of kind n stack }
{
    let panes = Panes::with_stack(kind, n, stack)?;
    Ok(panes.rank(stack))
}

// Stack at an index.
pub fn stack_at_index(kind: u8, n: u8, index: u32) -> Result<[i8; PLACES], Refusal>
    ensures { as_stacked result ≡ stack_of kind n index }
{
    let panes = Panes::new(kind, n)?;
    if panes.stack_count() <= index {
        return Err(Refusal::IndexOrTurn);
    }
    Ok(panes.unrank(index))
}

// Turn.
pub fn turn(kind: u8, n: u8, stack: [i8; PLACES], k: u8) -> Result<[i8; PLACES], Refusal>
    ensures { as_stacked result ≡ turned_of kind n stack k }
{
    let panes = Panes::with_stack(kind, n, stack)?;
    if !panes.is_turn(k) {
        return Err(Refusal::IndexOrTurn);
    }
    Ok(panes.moved(stack, k))
}
