// The lexicographic numbering of stacks, each way: rank and unrank; and the rank after a turn.
ghost use Rattle.std.specs.Prelude.{true, ◌≡◌, ◌≤◌, ◌<◌};
ghost use Rattle.perm.specs.Panes.{kind_of};
ghost use Rattle.perm.specs.Ranking.{PlaceFits, place_ranked};
ghost use Rattle.stacks.specs.Index.{rank_of, stack_at};
ghost use Rattle.stacks.specs.Stack.{is_pane_count, is_stack, stack_count};
ghost use Rattle.stacks.specs.Turn.{turn_of};

use crate::factorial::factorial;
use crate::panes::Panes;
use crate::{place, set};
use stacks::PLACES;

// What ranking has met: the panes as a set, and the order and the coats as far as they are met.
#[derive(Clone, Copy, Default)]
pub struct Ranking {
    pub met: u32,
    pub order: u32,
    pub coats: u32,
}

impl Ranking {
    // One place more, with `left` places from it on. No division: each digit of the factorial base is added as the pane is met, and the coat beside
    // it.
    fn with_place(self, left: u32, x: i8) -> Ranking
        requires { PlaceFits self left x }
        ensures { result ≡ place_ranked self left x }
    {
        let pane = place::magnitude(x) - 1;
        let digit = pane - set::ones_below(self.met, pane);
        Ranking {
            met: self.met + (1 << pane),
            order: self.order * left + digit,
            coats: self.coats * 2 + place::coat_bit(x),
        }
    }
}

impl Panes {
    // The index of a stack.
    pub fn rank(self, stack: [i8; PLACES]) -> u32
        requires { is_stack (kind_of self) self.n stack ≡ true }
        ensures { result ≡ rank_of (kind_of self) self.n stack }
    {
        let top = self.n as u32;
        let mut above = Ranking::default();
        for p in 0..top {
            above = above.with_place(top - p, stack[p as usize]);
        }
        above.order * self.kind.coatings(self.n) + above.coats
    }

    // The index of a stack after turn k. Only the group is ranked: the places below it keep their digits and coats, which `index` has.
    pub(crate) fn rank_turned(self, stack: &[i8; PLACES], index: u32, k: u8) -> u32
        requires { (is_stack (kind_of self) self.n stack.now ≡ true) × (index ≡ rank_of (kind_of self) self.n stack.now) × (k ≤ self.n) }
        ensures { result ≡ rank_of (kind_of self) self.n (turn_of (kind_of self) k stack.now) }
    {
        let top = self.n as u32;
        let group = k as u32;
        let mut above = Ranking::default();
        for p in 0..group {
            let x = self.kind.flipped(stack[(group - 1 - p) as usize]);
            above = above.with_place(top - p, x);
        }
        let below = top - group;
        let ways = self.kind.coatings(self.n);
        let orders = factorial(below);
        let order = above.order * orders + index / ways % orders;
        let weight: u32 = 1 << below;
        let coats = above.coats * weight + index % ways % weight;
        order * ways + coats
    }

    // The stack at an index. The free panes are a set: the digit says which of its ones stands next. Above place p, p panes have gone.
    pub fn unrank(self, index: u32) -> [i8; PLACES]
        requires { index < stack_count (kind_of self) self.n }
        ensures { result ≡ stack_at (kind_of self) self.n index }
    {
        let ways = self.kind.coatings(self.n);
        let coats = index % ways;
        let mut left = index / ways;
        let top = self.n as u32;
        let mut free: u32 = (1 << top) - 1;
        let mut stack = [0i8; PLACES];
        for p in 0..top {
            let below = top - 1 - p;
            let f = factorial(below);
            let pane = set::nth_one(free, left / f, p);
            left = left % f;
            free -= 1 << pane;
            stack[p as usize] = place::pane_with(pane + 1, (coats >> below) % 2);
        }
        stack
    }
}
