// The kind and n of a stack, which are in range, and what depends on them alone: the turns, and how many stacks there are.
ghost use Rattle.std.specs.Prelude.{IfOk, true, ◌≡◌};
ghost use Rattle.stacks.specs.Stack.{is_kind, is_coated, is_pane_count, stack_count};
ghost use Rattle.stacks.specs.Operations.{kind_refusal};
ghost use Rattle.stacks.specs.Refusals.{refusal_of};
ghost use Rattle.stacks.specs.Turn.{last_turn, is_turn};
ghost use Rattle.perm.specs.Kinds.{number_of};

use crate::factorial::factorial;
use crate::kind::Kind;
use stacks::Refusal;

#[derive(Clone, Copy, Debug, PartialEq, Eq)]
pub struct Panes {
    pub kind: Kind,
    pub n: u8,
    ghost in_range: { is_pane_count (number_of kind) n ≡ true },
}

impl Panes {
    // Of a kind's number and n. They come first in every operation.
    #[tactic(auto, unfolding(stacks::specs::Refusals::number, stacks::specs::Operations::kind_refusal, stacks::specs::Stack::is_kind))]
    pub fn new(kind: u8, n: u8) -> Result<Panes, Refusal>
        ensures refusal { refusal_of result ≡ kind_refusal kind n 0 }
        ensures panes { IfOk result (λ panes. (number_of panes.kind ≡ kind) × (panes.n ≡ n)) }
    {
        let kind = match kind {
            0 => Kind::Plain,
            1 => Kind::Coated,
            _ => return Err(Refusal::Kind),
        };
        if !kind.is_pane_count(n) {
            return Err(Refusal::Panes);
        }
        Ok(Panes { kind, n })
    }

    // Of a kind and n that are in range.
    pub fn of(kind: u8, n: u8) -> Panes
        requires panes { is_pane_count kind n ≡ true }
        requires kinds { is_kind kind ≡ true }
        ensures { (number_of result.kind ≡ kind) × (result.n ≡ n) }
    {
        Panes::new(kind, n).unwrap()
    }

    // Of any kind's number, and an n that is in its range.
    pub fn like(kind: u8, n: u8) -> Panes
        requires { is_pane_count kind n ≡ true }
        ensures { (is_coated (number_of result.kind) ≡ is_coated kind) × (result.n ≡ n) }
    {
        Panes {
            kind: Kind::like(kind),
            n,
        }
    }

    // N, which fits 32 bits at every kind and n.
    pub fn stack_count(self) -> u32
        ensures { result ≡ stack_count (number_of self.kind) self.n }
    {
        factorial(self.n as u32) * self.kind.coatings(self.n)
    }

    pub fn last_turn(self) -> u8
        ensures { result ≡ last_turn (number_of self.kind) self.n }
    {
        self.kind.last_turn(self.n)
    }

    pub fn is_turn(self, k: u8) -> bool
        ensures { result ≡ is_turn (number_of self.kind) self.n k }
    {
        self.kind.is_turn(self.n, k)
    }
}
