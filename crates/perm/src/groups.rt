// Sets of group sizes, those that a frame lifts: size k is the bit of weight 2^(k - 1).
ghost use Rattle.std.specs.Prelude.{IfOk, true, not, ◌||◌, ◌≡◌, ◌≤◌, eqb, length};
ghost use Rattle.base.specs.Words.{all, from, unless};
ghost use Rattle.stacks.specs.Refusals.{refusal_of};
ghost use Rattle.stacks.specs.Stack.{is_coated, is_pane_count};
ghost use Rattle.stacks.specs.Turn.{is_turn, turns_of, lifts, group_places, is_group_set, turns_in, all_groups};
ghost use Rattle.perm.specs.Kinds.{number_of};
ghost use Rattle.perm.specs.Panes.{kind_of};
ghost use Rattle.perm.specs.Sizes.{sizes_left};

use crate::kind::Kind;
use crate::panes::Panes;
use crate::sizes::Sizes;
use stacks::{PLACES, Refusal};

// As many moves as a search can have: no more than a stack has places.
pub const MOST_MOVES: usize = PLACES;

impl Kind {
    // Each size that the set names is a turn of n panes.
    fn names_turns(self, n: u8, groups: u32) -> bool
        ensures { result ≡ all (λ k. not (lifts groups k) || is_turn (number_of self) n k) (from 1 group_places) }
    {
        Sizes::of(groups).all(|k| self.is_turn(n, k))
    }

    fn has_turns(self, n: u8) -> bool
        ensures { result ≡ not (eqb (length (turns_of (number_of self) n)) 0) }
    {
        self.first_turn() <= self.last_turn(n)
    }

    // Those, and at least one if there is one; of any n.
    #[tactic(auto, unfolding(stacks::specs::Turn::is_group_set))]
    pub fn is_group_set(self, n: u8, groups: u32) -> bool
        ensures { result ≡ is_group_set (number_of self) n groups }
    {
        self.names_turns(n, groups) && (groups != 0 || !self.has_turns(n))
    }
}

impl Panes {
    pub fn is_group_set(self, groups: u32) -> bool
        ensures { result ≡ is_group_set (kind_of self) self.n groups }
    {
        self.kind.is_group_set(self.n, groups)
    }

    // The full set. The bits from the first turn to the last are what two powers of two differ by.
    pub fn all_groups(self) -> u32
        ensures { result ≡ all_groups (kind_of self) self.n }
    {
        let last = self.last_turn() as u32;
        let first = self.kind.first_turn() as u32;
        (1 << last) - (1 << (first - 1))
    }
}

// A set of group sizes that is one of that kind and n.
#[derive(Clone, Copy, Debug, PartialEq, Eq)]
pub struct TurnSet {
    pub panes: Panes,
    pub groups: u32,
    ghost named: { is_group_set (kind_of panes) panes.n groups ≡ true },
}

impl TurnSet {
    #[tactic(auto, unfolding(stacks::specs::Refusals::number))]
    pub fn new(panes: Panes, groups: u32) -> Result<TurnSet, Refusal>
        ensures refusal { refusal_of result ≡ unless (is_group_set (kind_of panes) panes.n groups) 21 0 }
        ensures set { IfOk result (λ set. (set.panes ≡ panes) × (set.groups ≡ groups)) }
    {
        if !panes.is_group_set(groups) {
            return Err(Refusal::Groups);
        }
        Ok(TurnSet { panes, groups })
    }

    // Of a set that is one.
    pub fn of(panes: Panes, groups: u32) -> TurnSet
        requires { is_group_set (kind_of panes) panes.n groups ≡ true }
        ensures { (result.panes ≡ panes) × (result.groups ≡ groups) }
    {
        TurnSet { panes, groups }
    }

    // Of numbers.
    fn like(kind: u8, n: u8, groups: u32) -> TurnSet
        requires { (is_pane_count kind n ≡ true) × (is_group_set kind n groups ≡ true) }
        ensures { (is_coated (kind_of result.panes) ≡ is_coated kind) × (result.panes.n ≡ n) × (result.groups ≡ groups) }
    {
        TurnSet::of(Panes::like(kind, n), groups)
    }

    #[tactic(auto, unfolding(stacks::specs::Turn::lifts))]
    pub fn lifts(self, k: u8) -> bool
        requires { (1 ≤ k) × (k ≤ group_places) }
        ensures { result ≡ lifts self.groups k }
    {
        lifts(self.groups, k)
    }

    // The turns that it names, rising.
    pub fn turns(self) -> Sizes
        ensures { sizes_left result ≡ turns_in (kind_of self.panes) self.panes.n self.groups }
    {
        Sizes::of(self.groups)
    }

    // How many turns it names.
    pub fn count(self) -> u32
        ensures { result ≡ length (turns_in (kind_of self.panes) self.panes.n self.groups) }
    {
        self.groups.count_ones()
    }
}

// By numbers, as Terms have them, for whoever makes Terms: a kind may be any number, and all but 1 count as plain, as in the definitions.
#[tactic(auto, unfolding(stacks::specs::Turn::lifts))]
pub fn lifts(groups: u32, k: u8) -> bool
    requires { (1 ≤ k) × (k ≤ group_places) }
    ensures { result ≡ lifts groups k }
{
    (groups >> (k as u32 - 1)) % 2 == 1
}

pub fn is_group_set(kind: u8, n: u8, groups: u32) -> bool
    ensures { result ≡ is_group_set kind n groups }
{
    Kind::like(kind).is_group_set(n, groups)
}

pub fn all_groups(kind: u8, n: u8) -> u32
    requires { is_pane_count kind n ≡ true }
    ensures { result ≡ all_groups kind n }
{
    Panes::like(kind, n).all_groups()
}

pub fn turn_count(kind: u8, n: u8, groups: u32) -> u32
    requires { (is_pane_count kind n ≡ true) × (is_group_set kind n groups ≡ true) }
    ensures { result ≡ length (turns_in kind n groups) }
{
    TurnSet::like(kind, n, groups).count()
}
