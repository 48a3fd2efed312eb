// What a build is for, and what became of a call, each with its text.
use stacks::Refusal;
use std::fmt;

// Not the library's own, as what the checks compare it with uses nothing of it.
#[derive(Clone, Copy, Debug, PartialEq, Eq)]
pub enum Kind {
    Plain,
    Coated,
}

impl From<Kind> for u8 {
    fn from(kind: Kind) -> u8 {
        match kind {
            Kind::Plain => 0,
            Kind::Coated => 1,
        }
    }
}

impl fmt::Display for Kind {
    fn fmt<W: fmt::Write>(&self, f: &mut fmt::Formatter<W>) -> fmt::Result {
        f.write_str(match self {
            Kind::Plain => "plain",
            Kind::Coated => "coated",
        })
    }
}

// A kind and n, and the set of the group sizes that are lifted. Its text is the kind and n.
#[derive(Clone, Copy, Debug, PartialEq, Eq)]
pub struct Frame {
    pub kind: Kind,
    pub n: u8,
    pub groups: u32,
}

impl Frame {
    pub fn plain(n: u8, groups: u32) -> Frame {
        Frame {
            kind: Kind::Plain,
            n,
            groups,
        }
    }

    pub fn coated(n: u8, groups: u32) -> Frame {
        Frame {
            kind: Kind::Coated,
            n,
            groups,
        }
    }
}

impl fmt::Display for Frame {
    fn fmt<W: fmt::Write>(&self, f: &mut fmt::Formatter<W>) -> fmt::Result {
        write!(f, "{} {}", self.kind, self.n)
    }
}

// What became of a call: accepted, or refused with the refusal's number.
#[derive(Clone, Copy, Debug, PartialEq, Eq)]
pub struct Verdict(pub Result<(), Refusal>);

impl fmt::Display for Verdict {
    fn fmt<W: fmt::Write>(&self, f: &mut fmt::Formatter<W>) -> fmt::Result {
        match self.0 {
            Ok(()) => f.write_str("accepted"),
            Err(refusal) => write!(f, "refused {}", u8::from(refusal)),
        }
    }
}
