// What a later frame is answered, written at the front of a lent buffer. The answer is the text's length.
ghost use Rattle.text.specs.Kept.{text_of};
ghost use Rattle.text.specs.Written.{Wrote};
ghost use Rattle.text.specs.Report.{plan_text, later_text};

use crate::lent;
use frames::{frame, output};
use search::PLAN_LIMIT;
use stacks::PLACES;
use text::{Reader, TEXT_LIMIT};

// The plan of a stack, or Plan's refusal.
fn plan_text(
    reader: &Reader,
    table: &[u8],
    given: [i8; PLACES],
    out: &mut [u8; TEXT_LIMIT],
) -> usize
    ensures { Wrote (plan_text reader.now.kind reader.now.n reader.now.wanted table.now given) out.old out.new result }
{
    let groups = lent::report_groups(reader.kind, reader.n);
    let mut turns = [0; PLAN_LIMIT];
    let planned = plan::plan::plan(
        reader.kind,
        reader.n,
        reader.wanted,
        given,
        groups,
        table,
        &mut turns,
    );
    match planned {
        Ok(count) => output::write_plan(out, &turns, count),
        Err(refusal) => output::write_refusal(out, refusal),
    }
}

// The frame's refusal, or the plan of its stack.
pub(crate) fn later_text(reader: &Reader, table: &[u8], out: &mut [u8; TEXT_LIMIT]) -> usize
    ensures { Wrote (later_text reader.now.kind reader.now.n reader.now.wanted table.now (text_of reader.now.line)) out.old out.new result }
{
    match frame::later_frame(reader.kind, reader.n, &reader.line) {
        Ok(given) => plan_text(reader, table, given, out),
        Err(refusal) => output::write_refusal(out, refusal),
    }
}
