// The set that a report uses, and how much of its table, log area and changed list: nothing of them where a first frame is none of those that
// are accepted.
ghost use Rattle.std.specs.Prelude.{◌≡◌, ◌≤◌, true, false, MatchOption};
ghost use Rattle.stacks.specs.Stack.{stack_count};
ghost use Rattle.stacks.specs.Turn.{all_groups};
ghost use Rattle.perm.specs.Panes.{kind_of};
ghost use Rattle.text.specs.Frame.{table_limit};
ghost use Rattle.text.specs.Report.{is_reported, report_groups, table_bytes, log_words, changed_bytes};
ghost use Rattle.text.specs.Reader.{log_limit, list_limit};

use perm::panes::Panes;
use text::{REPORT_ROOM, STACK_LIMIT};
use twobit::{list, segment};

// The panes that a report is made of. Any kind is asked for: as is_reported of text/specs/Report.antt has it, one that is not coated counts as plain.
fn reported(kind: u8, n: u8) -> Option<Panes>
    ensures { MatchOption result (is_reported kind n ≡ false) (λ panes. (is_reported kind n ≡ true) × (stack_count (kind_of panes) panes.n ≡ stack_count kind n) × (all_groups (kind_of panes) panes.n ≡ all_groups kind n)) }
{
    match Panes::new((kind == 1) as u8, n) {
        Ok(panes) if panes.stack_count() <= STACK_LIMIT => Some(panes),
        _ => None,
    }
}

// How many stacks they have.
fn reported_stacks(kind: u8, n: u8) -> Option<u32>
    ensures { MatchOption result (is_reported kind n ≡ false) (λ stacks. (is_reported kind n ≡ true) × (stacks ≡ stack_count kind n)) }
{
    Some(reported(kind, n)?.stack_count())
}

// Every size.
pub(crate) fn report_groups(kind: u8, n: u8) -> u32
    ensures { result ≡ report_groups kind n }
{
    match reported(kind, n) {
        Some(panes) => panes.all_groups(),
        None => 0,
    }
}

pub(crate) fn table_bytes(kind: u8, n: u8) -> usize
    ensures { (result ≡ table_bytes kind n) × (result ≤ table_limit) }
{
    match reported_stacks(kind, n) {
        Some(stacks) => segment::bytes_for(stacks) as usize,
        None => 0,
    }
}

pub(crate) fn log_words(kind: u8, n: u8, size: u32) -> usize
    ensures { (result ≡ log_words kind n size) × (result ≤ log_limit) }
{
    match reported_stacks(kind, n) {
        Some(stacks) if segment::is_segment_size(stacks, size) => {
            (segment::segment_count(stacks, size) * REPORT_ROOM) as usize
        }
        _ => 0,
    }
}

// The list of the first segment, which is the largest.
pub(crate) fn changed_bytes(kind: u8, n: u8, size: u32) -> usize
    ensures { (result ≡ changed_bytes kind n size) × (result ≤ list_limit) }
{
    match reported_stacks(kind, n) {
        Some(stacks) => list::list_bytes(segment::stack_count_in(stacks, size, 0)) as usize,
        None => 0,
    }
}
