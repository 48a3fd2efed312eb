// The report's lines, written into a lent buffer, whose other bytes stay. The place after a line is handed on as a number and not kept in a struct,
// as the buffer is the caller's, and Put, Wrote and Shown of text's specs/ say what all of it holds before and after.
ghost use Rattle.std.specs.Prelude.{◌≡◌, ◌+◌, ◌*◌, ◌%◌, ◌^◌, ◌<◌, ◌∷◌, ◌++◌, length, take};
ghost use Rattle.base.specs.Words.{total};
ghost use Rattle.stacks.specs.Refusals.{number};
ghost use Rattle.text.specs.Output.{level_counts, level_lines, deepest_line, total_line, plan_line, refusal_line};
ghost use Rattle.text.specs.Written.{Put, Wrote};
ghost use Rattle.text.specs.Hex.{line_of, four_bytes};

use crate::hex;
use search::{COUNT_PLACES, PLAN_LIMIT};
use stacks::Refusal;
use text::TEXT_LIMIT;

// The first byte of each line that is no level's and no plan's.
const DEEPEST_MARK: u8 = 0xff;

const TOTAL_MARK: u8 = 0xfe;

const REFUSAL_MARK: u8 = 0xee;

// The digits of a line's bytes and its end, from place at on. The answer is the place after them.
pub fn put_line(out: &mut [u8], at: usize, bytes: &[u8]) -> usize
    requires { at + 2 * length bytes.now < length out.old }
    ensures { Put (line_of bytes.now) at out.old out.new result }
{
    let end = hex::put_bytes(out, at, bytes);
    out[end] = b'\n';
    end + 1
}

// A byte and a number, of which four bytes are written: a level and its count, or fe and the total.
pub(crate) fn put_number(out: &mut [u8], at: usize, first: u8, number: u64) -> usize
    requires { at + 10 < length out.old }
    ensures { Put (line_of (first ∷ four_bytes number)) at out.old out.new result }
{
    let [.., a, b, c, d] = number.to_be_bytes();
    put_line(out, at, &[first, a, b, c, d])
}

// Levels 0 to the deepest, each with its count. The answer is how long they are.
pub(crate) fn write_levels(
    out: &mut [u8; TEXT_LIMIT],
    counts: &[u64; COUNT_PLACES],
    deepest: u8,
) -> usize
    ensures { Wrote (level_lines deepest counts.now) out.old out.new result }
{
    let mut at = 0;
    for level in 0..=deepest {
        at = put_number(out, at, level, counts[level as usize]);
    }
    at
}

// A line at the front. The answer is its length.
pub(crate) fn write_line(out: &mut [u8], bytes: &[u8]) -> usize
    requires { 2 * length bytes.now < length out.old }
    ensures { Wrote (line_of bytes.now) out.old out.new result }
{
    put_line(out, 0, bytes)
}

// The sum of the counts of levels 0 to the deepest. Four bytes of it are printed, so that it may wrap.
pub(crate) fn total_of(counts: &[u64; COUNT_PLACES], deepest: u8) -> u64
    ensures { result ≡ total (level_counts deepest counts.now) % 2 ^ 64 }
{
    let mut sum: u64 = 0;
    for &count in &counts[..=deepest as usize] {
        sum = sum.wrapping_add(count);
    }
    sum
}

// The levels, ff and the deepest, fe and the total: what a finished build found. The answer is how long it is.
pub fn write_head(out: &mut [u8; TEXT_LIMIT], counts: &[u64; COUNT_PLACES], deepest: u8) -> usize
    ensures { Wrote (level_lines deepest counts.now ++ deepest_line deepest ++ total_line (total (level_counts deepest counts.now))) out.old out.new result }
{
    let levels = write_levels(out, counts, deepest);
    let at = put_line(out, levels, &[DEEPEST_MARK, deepest]);
    put_number(out, at, TOTAL_MARK, total_of(counts, deepest))
}

// ee and the refusal's number.
#[tactic(auto, unfolding(text::specs::Output::refusal_line))]
pub fn write_refusal(out: &mut [u8; TEXT_LIMIT], refusal: Refusal) -> usize
    ensures { Wrote (refusal_line (number refusal)) out.old out.new result }
{
    write_line(out, &[REFUSAL_MARK, refusal.into()])
}

// The number of turns and the turns.
pub(crate) fn write_turns(out: &mut [u8], turns: &[u8]) -> usize
    requires { (length turns.now < 256) × (2 * length turns.now + 2 < length out.old) }
    ensures { Wrote (plan_line turns.now) out.old out.new result }
{
    let at = hex::put_bytes(out, 0, &[turns.len() as u8]);
    put_line(out, at, turns)
}

// A plan: the first count of the turns, all that there are where count is more.
pub fn write_plan(out: &mut [u8; TEXT_LIMIT], turns: &[u8; PLAN_LIMIT], count: u32) -> usize
    ensures { Wrote (plan_line (take count turns.now)) out.old out.new result }
{
    let most = PLAN_LIMIT.min(count as usize);
    write_turns(out, &turns[..most])
}
