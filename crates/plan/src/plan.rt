// Plan.
ghost use Rattle.std.specs.Prelude.{◌≡◌, ◌≤◌, ◌++◌, length, take, drop};
ghost use Rattle.search.specs.Plan.{plan_limit, plan_of};
ghost use Rattle.search.specs.Results.{as_planned};
ghost use Rattle.plan.specs.Drafts.{DraftsTurns, DraftsPlanTurns};

use crate::question::Question;
use crate::route;
use crate::turns::Turns;
use search::PLAN_LIMIT;
use stacks::{PLACES, Refusal};
use twobit::entry::UNSEEN;

// The refusals that the table's entries decide, and the turns.
#[tactic(auto, unfolding(stacks::specs::Refusals::number), using(crate::proofs::Answers::draft_rows))]
fn drafted(question: &Question) -> Result<Turns, Refusal>
    ensures { DraftsTurns question.now result }
{
    if route::entry_of(question, question.given) == UNSEEN {
        return Err(Refusal::NoRoad);
    }
    if route::entry_of(question, question.wanted) != 0 {
        return Err(Refusal::NoPlan);
    }
    let way = route::route_from(question);
    let panes = question.set.panes;
    if panes.rank(way.stack) != panes.rank(question.wanted) {
        return Err(Refusal::NoPlan);
    }
    Ok(way.turns)
}

// Every refusal of Plan, and its turns in a list of their own, for a lent one of so many slots: that is written when nothing refuses any more.
pub fn draft_plan(
    kind: u8,
    n: u8,
    wanted: [i8; PLACES],
    given: [i8; PLACES],
    groups: u32,
    table: &[u8],
    slots: usize,
) -> Result<Turns, Refusal>
    ensures { DraftsPlanTurns kind n wanted given groups table.now slots result }
{
    let question = Question::new(kind, n, wanted, given, groups, table, slots)?;
    drafted(&question)
}

// Turns of a caller's own come to the front of a list as those of a plan do, and the bytes past them stay.
pub fn copy_turns(list: &mut [u8], turns: [u8; PLAN_LIMIT], taken: usize)
    requires { (taken ≤ plan_limit) × (taken ≤ length list.old) }
    ensures { list.new ≡ take taken turns ++ drop taken list.old }
{
    let own = Turns {
        list: turns,
        count: taken,
    };
    own.copy_to(list);
}

// Plan.
pub fn plan(
    kind: u8,
    n: u8,
    wanted: [i8; PLACES],
    given: [i8; PLACES],
    groups: u32,
    table: &[u8],
    list: &mut [u8],
) -> Result<u32, Refusal>
    ensures { (list.new, as_planned result) ≡ plan_of kind n wanted given groups table.now list.old }
{
    let turns = draft_plan(kind, n, wanted, given, groups, table, list.len())?;
    turns.copy_to(list);
    Ok(turns.len() as u32)
}
