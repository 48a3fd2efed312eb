// The maker of the table of ones: it counts the ones of each set by itself, and does not read the constant.
#![tactic(auto)]

ghost use Rattle.std.specs.Prelude.{◌≡◌, ◌*◌, ◌<◌, take, drop};
ghost use Rattle.ones.specs.Ones.{set_count, ones_table, clearings};
ghost use Rattle.maker.specs.OnesText.{line_bytes, line_count, ones_text};

use frames::output;

// The bytes of a line, the lines, and the characters of all of them: two a byte, and each line's end.
const LINE_BYTES: usize = 16;

const LINE_COUNT: u32 = 256;

pub const TEXT_LENGTH: usize = (2 * LINE_BYTES + 1) * LINE_COUNT as usize;

// How often the lowest one of a set can be cleared. Less 1, a set has a 0 there, ones below it, and the same above. The loop is the second reading
// itself, `clearings`: it counts, and goes by no index.
fn cleared(set: u32) -> u8
    requires { set < set_count }
    ensures { result ≡ clearings set }
{
    let mut rest = set;
    let mut count: u8 = 0;
    while rest != 0 {
        rest &= rest - 1;
        count += 1;
    }
    count
}

// The entries of a line.
fn line_of(line: u32) -> [u8; LINE_BYTES]
    requires { line < line_count }
    ensures { result ≡ take line_bytes (drop (line_bytes * line) ones_table) }
{
    let first = LINE_BYTES as u32 * line;
    let mut bytes = [0; LINE_BYTES];
    for i in 0..LINE_BYTES {
        bytes[i] = cleared(first + i as u32);
    }
    bytes
}

// The whole text.
pub fn table_text() -> [u8; TEXT_LENGTH]
    ensures { result ≡ ones_text }
{
    let mut text = [0; TEXT_LENGTH];
    let mut at = 0;
    for line in 0..LINE_COUNT {
        at = output::put_line(&mut text, at, &line_of(line));
    }
    text
}
