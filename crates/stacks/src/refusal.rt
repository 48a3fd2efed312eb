// The refusals of every call, by name. A call answers one as its error; C and the definitions have its number.
ghost use Rattle.std.specs.Prelude.{◌≡◌};
ghost use Rattle.stacks.specs.Refusals.{number};

// What the variants say is that of which the call was refused.
#[derive(Clone, Copy, Debug, PartialEq, Eq)]
pub enum Refusal {
    Kind,
    Panes,
    Stack,
    IndexOrTurn,
    Size,
    Room,
    Incoherent,
    Phase,
    Segment,
    Length,
    Passed,
    Offset,
    NotReady,
    LastLevel,
    NoPlan,
    Frame,
    Line,
    NoLine,
    TwoLines,
    NoRoad,
    Groups,
    NotLoaded,
}

impl From<Refusal> for u8 {
    ghost from_gives = { λ refusal result. result ≡ number refusal };

    #[tactic(auto, unfolding(crate::specs::Refusals::number))]
    fn from(refusal: Refusal) -> u8 {
        match refusal {
            Refusal::Kind => 1,
            Refusal::Panes => 2,
            Refusal::Stack => 3,
            Refusal::IndexOrTurn => 4,
            Refusal::Size => 5,
            Refusal::Room => 6,
            Refusal::Incoherent => 7,
            Refusal::Phase => 8,
            Refusal::Segment => 9,
            Refusal::Length => 10,
            Refusal::Passed => 11,
            Refusal::Offset => 12,
            Refusal::NotReady => 13,
            Refusal::LastLevel => 14,
            Refusal::NoPlan => 15,
            Refusal::Frame => 16,
            Refusal::Line => 17,
            Refusal::NoLine => 18,
            Refusal::TwoLines => 19,
            Refusal::NoRoad => 20,
            Refusal::Groups => 21,
            Refusal::NotLoaded => 22,
        }
    }
}
