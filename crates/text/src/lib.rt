// The report's limits, and what its frames and its reader are, as types: no code but the line's and the reader's own, only specs/ and proofs/.
#![tactic(auto)]

ghost use Rattle.std.specs.Prelude.{◌≡◌, ◌≤◌, ◌<◌, length, eqb, MatchOption};
ghost use Rattle.text.specs.Frame.{frame_limit};
ghost use Rattle.text.specs.Kept.{new_line, pushed, text_of};
ghost use Rattle.text.specs.Reader.{is_start, is_over, new_reader, with_line};

use stacks::PLACES;

// The characters of a frame.
pub const FRAME_LIMIT: usize = 64;

// The length at which a line of more characters is left.
pub const OVERLONG: usize = FRAME_LIMIT + 1;

// The most stacks that a report is made of.
pub const STACK_LIMIT: u32 = 46080;

// C, the places of a log.
pub const REPORT_ROOM: u32 = 16;

// The bytes of the table of the most stacks.
pub const TABLE_LIMIT: usize = 11520;

// The room that a lent text has: 11 characters for each place of the counts, ff and the deepest, fe and the total take 2832.
pub const TEXT_LIMIT: usize = 3072;

// The places of the most logs, one for each segment that a job may have.
pub const LOG_LIMIT: usize = 1024;

// The bytes of the longest changed list: a bit for each of the most stacks that a report is made of.
pub const LIST_LIMIT: usize = 5760;

// A line in the making: its first FRAME_LIMIT characters, and its length, which stops at OVERLONG. A number and no variant says overlong, as
// new_line, pushed and text_of of specs/Kept.antt, which the theorem read-report stands on, speak of both fields.
#[derive(Clone, Copy)]
pub struct Line {
    pub chars: [u8; FRAME_LIMIT],
    pub length: usize,
}

impl Line {
    #[tactic(auto, unfolding(crate::specs::Kept::new_line))]
    pub fn new() -> Line
        ensures { result ≡ new_line }
    {
        Line {
            chars: [0; FRAME_LIMIT],
            length: 0,
        }
    }

    pub fn is_empty(&self) -> bool
        ensures { result ≡ eqb self.now.length 0 }
    {
        self.length == 0
    }

    // One character more. Past the limit there is only the length, which says so.
    pub fn push(&mut self, byte: u8)
        ensures { self.new ≡ pushed self.old byte }
    {
        if self.length < FRAME_LIMIT {
            self.chars[self.length] = byte;
            self.length += 1;
        } else {
            self.length = OVERLONG;
        }
    }

    // What it says, where that is no longer than a frame may be.
    pub fn text(&self) -> Option<&[u8]>
        ensures { MatchOption result (frame_limit < length (text_of self.now)) (λ text. (text.now ≡ text_of self.now) × (length text.now ≤ frame_limit)) }
    {
        self.chars.get(..self.length)
    }
}

// What the first frame says.
#[derive(Clone, Copy)]
pub struct FirstFrame {
    pub kind: u8,
    pub n: u8,
    pub wanted: [i8; PLACES],
    pub size: u32,
}

// Which frame comes next: the first (Start), a later one, or none, as the first was refused and the run is over.
#[derive(Clone, Copy, Debug, PartialEq, Eq)]
pub enum Stage {
    Start,
    Later,
    Over,
}

impl Stage {
    #[tactic(auto, unfolding(crate::specs::Reader::is_start))]
    pub fn is_start(self) -> bool
        ensures { result ≡ is_start self }
    {
        matches!(self, Stage::Start)
    }

    #[tactic(auto, unfolding(crate::specs::Reader::is_over))]
    pub fn is_over(self) -> bool
        ensures { result ≡ is_over self }
    {
        matches!(self, Stage::Over)
    }
}

// What was read so far. kind, n and wanted are the first frame's; line is the one in the making. They stand beside the stage and not in Later,
// as the definitions of specs/Reader.antt and the theorem read-report speak of them at every stage.
#[derive(Clone, Copy)]
pub struct Reader {
    pub stage: Stage,
    pub kind: u8,
    pub n: u8,
    pub wanted: [i8; PLACES],
    pub line: Line,
}

impl Reader {
    #[tactic(auto, unfolding(crate::specs::Reader::new_reader))]
    pub fn new() -> Reader
        ensures { result ≡ new_reader }
    {
        Reader {
            stage: Stage::Start,
            kind: 0,
            n: 0,
            wanted: [0; PLACES],
            line: Line::new(),
        }
    }

    // With another line in the making.
    #[tactic(auto, unfolding(crate::specs::Reader::with_line))]
    pub fn with_line(self, line: Line) -> Reader
        ensures { result ≡ with_line self line }
    {
        Reader { line, ..self }
    }
}

// The reader after a character, and how much of the lent buffer is to be printed: `Shown`, and by it the theorem read-report, speaks of both.
#[derive(Clone, Copy)]
pub struct Printed {
    pub reader: Reader,
    pub length: usize,
}
