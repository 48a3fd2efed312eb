// What Plan is asked, once nothing is refused of it that does not want the table's entries.
ghost use Rattle.std.specs.Prelude.{IfOk, true, ◌≡◌, length};
ghost use Rattle.perm.specs.Panes.{kind_of};
ghost use Rattle.stacks.specs.Refusals.{refusal_of};
ghost use Rattle.stacks.specs.Stack.{is_stack, stack_count};
ghost use Rattle.search.specs.Entries.{bytes_for};
ghost use Rattle.search.specs.Plan.{plan_row};

use perm::groups::TurnSet;
use perm::panes::Panes;
use search::PLAN_LIMIT;
use stacks::{PLACES, Refusal};
use twobit::segment;

// The set of group sizes, of the frame's kind and n, the stack to come to and the one to start from, and the table.
#[derive(Clone, Copy)]
pub struct Question<'a> {
    pub set: TurnSet,
    pub wanted: [i8; PLACES],
    pub given: [i8; PLACES],
    pub table: &'a [u8],
    ghost goal: { is_stack (kind_of set.panes) set.panes.n wanted ≡ true },
    ghost start: { is_stack (kind_of set.panes) set.panes.n given ≡ true },
    ghost long: { length table.now ≡ bytes_for (stack_count (kind_of set.panes) set.panes.n) },
}

impl<'a> Question<'a> {
    // Every refusal but 20 and 15, which want the table's entries, for a turn list of so many slots.
    pub fn new(
        kind: u8,
        n: u8,
        wanted: [i8; PLACES],
        given: [i8; PLACES],
        groups: u32,
        table: &'a [u8],
        slots: usize,
    ) -> Result<Question<'a>, Refusal>
        ensures refusal { refusal_of result ≡ plan_row kind n wanted given groups (length table.now) slots 0 }
        ensures set { IfOk result (λ q. (kind_of q.set.panes ≡ kind) × (q.set.panes.n ≡ n) × (q.set.groups ≡ groups)) }
        ensures rest { IfOk result (λ q. (q.wanted ≡ wanted) × (q.given ≡ given) × (q.table.now ≡ table.now)) }
    {
        let panes = Panes::with_stack(kind, n, wanted)?;
        if !panes.is_stack(given) {
            return Err(Refusal::Stack);
        }
        let set = TurnSet::new(panes, groups)?;
        let bytes = segment::bytes_for(panes.stack_count());
        if table.len() != bytes as usize || slots < PLAN_LIMIT {
            return Err(Refusal::Length);
        }
        Ok(Question {
            set,
            wanted,
            given,
            table,
        })
    }
}
