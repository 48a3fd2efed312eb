// The tariff, and what Price answers, as types: no code but what a line and a tariff are asked, only specs/ and proofs/.
#![tactic(auto)]

ghost use Rattle.std.specs.Prelude.{◌≡◌, ◌≤◌};
ghost use Rattle.tariff.specs.Tariffs.{line_limit, tariff_lines, is_line, covers};

// The limits, by the definitions' names: the lines of a tariff, and the price of a line in thousandths of a penny.
pub const LINE_LIMIT: usize = 12;

pub const PRICE_LIMIT: u32 = 1000000;

// A line: a turn of each group size from first to last costs price, in thousandths of a penny.
#[derive(Clone, Copy)]
#[repr(C)]
pub struct Line {
    pub first: u8,
    pub last: u8,
    pub price: u32,
}

impl Line {
    // Whether it is right, where the sizes are those up to the last.
    #[tactic(auto, unfolding(crate::specs::Tariffs::is_line))]
    pub fn fits(&self, last: u8) -> bool
        ensures { result ≡ is_line last self.now }
    {
        1 <= self.first && self.first <= self.last && self.last <= last && self.price <= PRICE_LIMIT
    }

    // A turn of size k costs its price.
    #[tactic(auto, unfolding(crate::specs::Tariffs::covers))]
    pub fn covers(&self, k: u8) -> bool
        ensures { result ≡ covers k self.now }
    {
        (self.first..=self.last).contains(&k)
    }
}

// A tariff of count lines, those at the front, as C has it. What stands past them does not matter, and a count above the limit is refused.
#[derive(Clone, Copy)]
#[repr(C)]
pub struct Tariff {
    pub count: u32,
    pub lines: [Line; LINE_LIMIT],
}

impl Tariff {
    // Those at the front.
    #[tactic(auto, unfolding(crate::specs::Tariffs::tariff_lines))]
    pub fn listed(&self) -> &[Line]
        requires { self.now.count ≤ line_limit }
        ensures { result.now ≡ tariff_lines self.now }
    {
        &self.lines[..self.count as usize]
    }
}

// What an accepted Price answers: how many turns stand at the front of the list, and what they cost in pennies.
#[derive(Clone, Copy, Debug, PartialEq, Eq)]
pub struct Cost {
    pub turns: u32,
    pub pennies: u32,
}
