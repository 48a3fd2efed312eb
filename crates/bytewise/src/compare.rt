// The library's answers beside the search's.
ghost use Rattle.std.specs.Prelude.{◌≤◌};

use crate::breadth::{Found, UNSEEN};
use crate::stack;
use crate::stack::Stack;
use search::{Job, PLAN_LIMIT};
use stacks::Refusal;
use trial::frame::Frame;

// Whether a build was refused, is not finished or has another deepest level than the search.
pub fn build_differs(built: &Result<Job, Refusal>, found: &Found) -> bool {
    match built {
        Ok(job) => !job.phase.is_finished() || job.phase.level() != found.deepest,
        Err(_) => true,
    }
}

// How many level counts differ.
pub fn counts(a: &[u64; 256], b: &[u64; 256]) -> u64 {
    a.iter().zip(b).filter(|(x, y)| x != y).count() as u64
}

// The entry that is due at each number of turns, the same every three turns, and without a road.
fn due_entries() -> [u8; 256] {
    let mut due = [3; 256];
    due[..3].copy_from_slice(&[0, 1, 2]);
    for d in 3..UNSEEN as usize {
        due[d] = due[d - 3];
    }
    due
}

// Whether the entry of the stack at index i is not the one that is due there.
fn entry_differs(frame: Frame, table: &[u8], i: usize, due: u8) -> bool {
    let index = (i % 4294967296) as u32;
    plan::read::read_entry(frame.kind.into(), frame.n, table, index) != Ok(due)
}

// Where some turns lead; no stack where one of them is not of the set.
fn follow(frame: Frame, given: &Stack, turns: &[u8]) -> Stack {
    let mut at = *given;
    for &k in turns {
        if !stack::lifts(frame.groups, k as usize) {
            return [0; stack::PLACES];
        }
        at = stack::turned(frame.kind, &at, k as usize);
    }
    at
}

// The plan from the stack at index i, which is d turns away: it has d turns and arrives. Without a road it is refused so.
fn plan_differs(frame: Frame, goal: usize, table: &[u8], i: usize, d: u8) -> bool
    requires { frame.n ≤ 12 }
{
    let n = frame.n as usize;
    let wanted = stack::places(&stack::unrank(frame.kind, n, goal));
    let given = stack::unrank(frame.kind, n, i);
    let from = stack::places(&given);
    let mut list = [0; PLAN_LIMIT];
    let planned = plan::plan::plan(
        frame.kind.into(),
        frame.n,
        wanted,
        from,
        frame.groups,
        table,
        &mut list,
    );
    if d == UNSEEN {
        return planned != Err(Refusal::NoRoad);
    }
    let turns = (d as usize).min(PLAN_LIMIT);
    planned != Ok(d as u32)
        || stack::rank(frame.kind, n, &follow(frame, &given, &list[..turns])) != goal
}

// How many entries differ, and plans, of each stack whose index is a multiple of step.
pub fn stacks(frame: Frame, goal: usize, table: &[u8], bytes: &[u8], step: usize) -> u64
    requires { (frame.n ≤ 12) × (1 ≤ step) }
{
    let due = due_entries();
    let mut differ: u64 = 0;
    for (i, &d) in bytes.iter().enumerate() {
        if entry_differs(frame, table, i, due[d as usize]) {
            differ = differ.wrapping_add(1);
        }
        if i % step == 0 && plan_differs(frame, goal, table, i, d) {
            differ = differ.wrapping_add(1);
        }
    }
    differ
}
