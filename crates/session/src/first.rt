// What a first frame is answered: the table is built, and the levels that the build found are written.
ghost use Rattle.std.specs.Prelude.{◌≡◌, List, ℕ, length, Ok};
ghost use Rattle.text.specs.Frame.{as_first, first_of, table_limit};
ghost use Rattle.text.specs.Written.{Wrote};
ghost use Rattle.text.specs.Report.{head_text, built_in};
ghost use Rattle.text.specs.Reader.{after_first, first_line, Shown};
ghost use Rattle.text.specs.declared.Stage.TheVariants.{Later};

use crate::lent;
use frames::{frame, output};
use search::{Job, Terms};
use text::{
    FirstFrame, LIST_LIMIT, LOG_LIMIT, Line, Printed, REPORT_ROOM, Reader, Stage, TEXT_LIMIT,
};

// The build of a frame's table in the part of the table that it uses. That of an accepted first frame is not refused.
fn build_in(first: FirstFrame, table: &mut [u8]) -> Job
    requires table_len { length table.old ≡ table_limit }
    requires accepted { (cs : List ℕ) × (as_first (Ok first) ≡ first_of cs) }
    ensures { (table.new, result) ≡ built_in first.kind first.n first.wanted first.size table.old }
{
    let mut log = [0u32; LOG_LIMIT];
    let mut list = [0u8; LIST_LIMIT];
    let groups = lent::report_groups(first.kind, first.n);
    let bytes = lent::table_bytes(first.kind, first.n);
    let words = lent::log_words(first.kind, first.n, first.size);
    let listed = lent::changed_bytes(first.kind, first.n, first.size);
    // A literal that takes an array straight from a field gets no proof.
    let wanted = first.wanted;
    let terms = Terms {
        kind: first.kind,
        n: first.n,
        wanted,
        groups,
        size: first.size,
        room: REPORT_ROOM,
    };
    build::build::build_table(
        terms,
        &mut table[..bytes],
        &mut log[..words],
        &mut list[..listed],
    )
    .unwrap()
}

// What a finished build found.
fn head_text(job: &Job, out: &mut [u8; TEXT_LIMIT]) -> usize
    ensures { Wrote (head_text job.now) out.old out.new result }
{
    output::write_head(out, &job.counts, job.phase.level())
}

// The reader after an accepted first frame.
#[tactic(auto, unfolding(text::specs::Reader::after_first, text::specs::Reader::new_reader))]
fn after_first(first: FirstFrame) -> Reader
    ensures { result ≡ after_first (as_first (Ok first)) Later }
{
    // A literal that takes an array straight from a field gets no proof.
    let wanted = first.wanted;
    Reader {
        stage: Stage::Later,
        kind: first.kind,
        n: first.n,
        wanted,
        line: Line::new(),
    }
}

// The first frame's refusal, or what its build found.
pub(crate) fn first_line(line: &Line, table: &mut [u8], out: &mut [u8; TEXT_LIMIT]) -> Printed
    requires { length table.old ≡ table_limit }
    ensures { Shown (first_line line.now table.old) result table.new out.old out.new }
{
    match frame::first_frame(line) {
        Ok(first) => {
            let job = build_in(first, table);
            let length = head_text(&job, out);
            Printed {
                reader: after_first(first),
                length,
            }
        }
        Err(refusal) => Printed {
            reader: Reader {
                stage: Stage::Over,
                ..Reader::new()
            },
            length: output::write_refusal(out, refusal),
        },
    }
}
