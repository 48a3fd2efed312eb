// The report's input, character by character: the reader after each, and what is to be printed.
ghost use Rattle.std.specs.Prelude.{◌≡◌, length};
ghost use Rattle.text.specs.Frame.{table_limit};
ghost use Rattle.text.specs.Reader.{later_line, line_read, byte_read, end_read, Shown};

use crate::{first, later, lent};
use text::{Line, Printed, Reader, Stage, TEXT_LIMIT};

// A later frame, answered from the part of the table that the first frame's build filled.
fn later_line(reader: Reader, table: &mut [u8], out: &mut [u8; TEXT_LIMIT]) -> Printed
    requires { length table.old ≡ table_limit }
    ensures { Shown (later_line reader table.old) result table.new out.old out.new }
{
    let bytes = lent::table_bytes(reader.kind, reader.n);
    let length = later::later_text(&reader, &table[..bytes], out);
    Printed {
        reader: reader.with_line(Line::new()),
        length,
    }
}

// A whole line. After a refused first frame there is nothing more to say.
fn line_read(reader: Reader, table: &mut [u8], out: &mut [u8; TEXT_LIMIT]) -> Printed
    requires { length table.old ≡ table_limit }
    ensures { Shown (line_read reader table.old) result table.new out.old out.new }
{
    match reader.stage {
        Stage::Start => first::first_line(&reader.line, table, out),
        Stage::Later => later_line(reader, table, out),
        Stage::Over => Printed {
            reader: reader.with_line(Line::new()),
            length: 0,
        },
    }
}

// One character: a line end, or one more of the line in the making.
pub fn byte_read(reader: Reader, byte: u8, table: &mut [u8], out: &mut [u8; TEXT_LIMIT]) -> Printed
    requires { length table.old ≡ table_limit }
    ensures { Shown (byte_read reader byte table.old) result table.new out.old out.new }
{
    if byte == b'\n' {
        return line_read(reader, table, out);
    }
    let mut line = reader.line;
    line.push(byte);
    Printed {
        reader: reader.with_line(line),
        length: 0,
    }
}

// The end of the input: a line that lacks its end is a line, and no line at all is a first frame that is missing.
pub fn end_read(reader: Reader, table: &mut [u8], out: &mut [u8; TEXT_LIMIT]) -> Printed
    requires { length table.old ≡ table_limit }
    ensures { Shown (end_read reader table.old) result table.new out.old out.new }
{
    if reader.stage.is_start() || !reader.line.is_empty() {
        return line_read(reader, table, out);
    }
    Printed {
        reader: reader.with_line(Line::new()),
        length: 0,
    }
}
