// The report: frames from standard input, one a line; levels, their total, plans and refusals to standard output, one a line.
#![tactic(auto)]

ghost use Rattle.std.specs.Prelude.{◌≡◌, false, List, ℕ, length, take, IfOk, OnErr};
ghost use Rattle.std.specs.ControlFlow.{MatchControlFlow};
ghost use Rattle.text.specs.Frame.{table_limit};
ghost use Rattle.text.specs.Reader.{is_over, new_reader, byte_read, end_read, read_all};

use session::input;
use std::io;
use std::io::Read;
use std::ops::ControlFlow;
use text::{Reader, TABLE_LIMIT, TEXT_LIMIT};

// The most that is read at a time.
const CHUNK: usize = 65536;

// Nothing is written but what a character brings to its reader, by definition: the table that it was answered from may be written over by now.
fn print_byte(to: &impl Print, reader: Reader, byte: u8, text: &[u8]) -> io::Result<()>
    requires { (table : List ℕ) × (text.now ≡ (byte_read reader byte table).text) }
{
    to.write_all(text)
}

// And what the end brings, after some characters were read from the start.
fn print_end(to: &impl Print, text: &[u8]) -> io::Result<()>
    requires { (before : List ℕ) × (input : List ℕ) × (let a = read_all new_reader before input in text.now ≡ (end_read a.0 a.1).text) }
{
    to.write_all(text)
}

// Reads a part of the input character by character, and prints what each brings. Where a write fails, the table is as the part up to there
// left it.
fn feed(to: &impl Print, reader: Reader, table: &mut [u8], chunk: &[u8]) -> io::Result<Reader>
    requires { length table.old ≡ table_limit }
    ensures ok { IfOk result (λ r. (r, table.new) ≡ read_all reader table.old chunk.now) }
    ensures err { OnErr result ((k : ℕ) × (table.new ≡ (read_all reader table.old (take k chunk.now)).1)) }
{
    let mut out = [0; TEXT_LIMIT];
    let mut now = reader;
    for &byte in chunk {
        let printed = input::byte_read(now, byte, table, &mut out);
        if printed.length > 0 {
            print_byte(to, now, byte, &out[..printed.length])?;
        }
        now = printed.reader;
    }
    Ok(now)
}

// The end of the input.
fn finish(to: &impl Print, reader: Reader, table: &mut [u8]) -> io::Result<()>
    requires table_len { length table.old ≡ table_limit }
    requires read_so_far { (before : List ℕ) × (input : List ℕ) × ((reader, table.old) ≡ read_all new_reader before input) }
{
    let mut out = [0; TEXT_LIMIT];
    let printed = input::end_read(reader, table, &mut out);
    print_end(to, &out[..printed.length])
}

// Reads what is there, and answers it before more is read. It goes on with the reader after it, or breaks with it: nothing is the end of the
// input, and a refused first frame ends the run. Where a read or a write fails, the table is as some characters left it.
fn read_some(
    from: &mut impl Read,
    to: &impl Print,
    reader: Reader,
    table: &mut [u8],
) -> io::Result<ControlFlow<Reader, Reader>>
    requires { length table.old ≡ table_limit }
    ensures ok { IfOk result (λ flow. (input : List ℕ) × MatchControlFlow flow (λ next. ((next, table.new) ≡ read_all reader table.old input) × (is_over next.stage ≡ false)) (λ last. (last, table.new) ≡ read_all reader table.old input)) }
    ensures err { OnErr result ((input : List ℕ) × (table.new ≡ (read_all reader table.old input).1)) }
{
    let mut chunk = [0; CHUNK];
    let got = from.read(&mut chunk)?;
    let next = feed(to, reader, table, &chunk[..got])?;
    if got == 0 || next.stage.is_over() {
        return Ok(ControlFlow::Break(next));
    }
    Ok(ControlFlow::Continue(next))
}

// A proved loop has to end, and nothing says that the input does: so the loop counts up, to a number that no run comes to.
fn run(from: &mut impl Read, to: &impl Print, table: &mut [u8]) -> io::Result<()>
    requires { length table.old ≡ table_limit }
{
    let mut reader = Reader::new();
    for _ in 0..u64::MAX {
        match read_some(from, to, reader, table)? {
            ControlFlow::Continue(next) => reader = next,
            ControlFlow::Break(last) => return finish(to, last, table),
        }
    }
    finish(to, reader, table)
}

// The table of the most stacks that a report is made of. It is lent as a slice whose length is required, so that a proof refuses a short one.
fn main(rt: HostRuntime) -> io::Result<()> {
    let mut table = [0; TABLE_LIMIT];
    run(&mut rt.stdin(), &rt, &mut table)
}
