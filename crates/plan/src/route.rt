// The core of Plan: a route from a stack to a goal over a table, in a local list. No lent list is written here.
ghost use Rattle.std.specs.Prelude.{◌≡◌, ◌≤◌, MatchOption};
ghost use Rattle.plan.specs.Questions.{StandsAt, index_in, moved_in, entry_in, turn_of, way_of};
ghost use Rattle.plan.specs.Routes.{route_of};

use crate::question::Question;
use crate::turns::Turns;
use search::PLAN_LIMIT;
use stacks::PLACES;
use twobit::entry;

// The stack that a route has come to, and its turns so far.
#[derive(Clone, Copy)]
pub struct Route {
    pub stack: [i8; PLACES],
    pub turns: Turns,
}

// A step of a route: its turn, and the index of the stack that it leads to.
#[derive(Clone, Copy)]
pub struct Step {
    pub k: u8,
    pub index: u32,
}

#[tactic(auto, unfolding(search::specs::Plan::entry_of), using(crate::proofs::Routes::entry_inside))]
pub(crate) fn entry_of(question: &Question, stack: [i8; PLACES]) -> u8
    requires { StandsAt question.now stack (index_in question.now stack) }
    ensures { result ≡ entry_in question.now stack }
{
    let index = question.set.panes.rank(stack);
    entry::get_entry(question.table, index)
}

// The largest turn of the set that leads from the stack at an index to a child with entry v, if one does.
fn turn_to(question: &Question, stack: [i8; PLACES], index: u32, v: u8) -> Option<Step>
    requires { StandsAt question.now stack index }
    ensures { MatchOption result (turn_of question.now stack v ≡ 0)
        (λ step. (1 ≤ step.k) × (step.k ≡ turn_of question.now stack v)
        × (step.index ≡ index_in question.now (moved_in question.now step.k stack))) }
{
    let panes = question.set.panes;
    let first = panes.kind.first_turn();
    let last = panes.last_turn();
    for k in (first..=last).rev() {
        if question.set.lifts(k) {
            let child = panes.rank_moved(&stack, index, k);
            if entry::get_entry(question.table, child) == v {
                return Some(Step { k, index: child });
            }
        }
    }
    None
}

// The route from the given stack by turns of the set: it ends at the wanted stack, at a stack from which none leads one nearer, or after as
// many turns as a plan may have.
#[tactic(auto, using(crate::proofs::Routes::entries_read))]
pub(crate) fn route_from(question: &Question) -> Route
    ensures { route_of result ≡ way_of question.now }
{
    let panes = question.set.panes;
    let goal = panes.rank(question.wanted);
    let mut stack = question.given;
    let mut index = panes.rank(stack);
    let mut turns = Turns::new();
    for _ in 0..PLAN_LIMIT {
        if index == goal {
            break;
        }
        let v = entry::get_entry(question.table, index);
        let nearer = entry::next_entry(entry::next_entry(v));
        let Some(step) = turn_to(question, stack, index, nearer) else {
            break;
        };
        // By a name of its own: a call's array that is laid in the loop's variable gets no proof.
        let child = panes.moved(stack, step.k);
        stack = child;
        index = step.index;
        turns.push(step.k);
    }
    Route { stack, turns }
}
