// The kinds of panes, and what depends on the kind alone. Besides, crate::place flips a pane and crate::valid looks at coats by the kind.
ghost use Rattle.std.specs.Prelude.{true, ◌≡◌, ◌≤◌};
ghost use Rattle.stacks.specs.Stack.{stack_places, is_coated, most_panes, is_pane_count, coatings, stack_count};
ghost use Rattle.stacks.specs.Turn.{first_turn, last_turn, is_turn};
ghost use Rattle.perm.specs.Kinds.{number_of};

#[derive(Clone, Copy, Debug, PartialEq, Eq)]
pub enum Kind {
    Plain,
    Coated,
}

impl Kind {
    // How many it has at most.
    #[tactic(auto, unfolding(stacks::specs::Stack::most_panes, stacks::specs::Stack::is_coated))]
    fn most_panes(self) -> u8
        ensures { result ≡ most_panes (number_of self) }
    {
        match self {
            Kind::Plain => 12,
            Kind::Coated => 10,
        }
    }

    // Whether n is in its range.
    #[tactic(auto, unfolding(stacks::specs::Stack::is_pane_count, stacks::specs::Stack::fewest_panes))]
    pub fn is_pane_count(self, n: u8) -> bool
        ensures { result ≡ is_pane_count (number_of self) n }
    {
        (1..=self.most_panes()).contains(&n)
    }

    #[tactic(auto, unfolding(stacks::specs::Turn::first_turn, stacks::specs::Stack::is_coated))]
    pub fn first_turn(self) -> u8
        ensures { result ≡ first_turn (number_of self) }
    {
        match self {
            Kind::Plain => 2,
            Kind::Coated => 1,
        }
    }

    // In how many ways the coats of n panes can lie.
    #[tactic(auto, unfolding(stacks::specs::Stack::coatings, stacks::specs::Stack::is_coated), using(crate::proofs::Sets::shifted))]
    pub(crate) fn coatings(self, n: u8) -> u32
        requires { n ≤ stack_places }
        ensures { result ≡ coatings (number_of self) n }
    {
        match self {
            Kind::Plain => 1,
            Kind::Coated => 1 << (n as u32),
        }
    }

    // A function of the kind, as `last_turn` of the definitions is.
    #[tactic(auto, unfolding(stacks::specs::Turn::last_turn))]
    pub fn last_turn(self, n: u8) -> u8
        ensures { result ≡ last_turn (number_of self) n }
    {
        n
    }

    #[tactic(auto, unfolding(stacks::specs::Turn::is_turn))]
    pub fn is_turn(self, n: u8, k: u8) -> bool
        ensures { result ≡ is_turn (number_of self) n k }
    {
        (self.first_turn()..=self.last_turn(n)).contains(&k)
    }

    // Of any number: all but 1 count as plain, as in the definitions.
    #[tactic(auto, unfolding(stacks::specs::Stack::is_coated))]
    pub fn like(kind: u8) -> Kind
        ensures { is_coated (number_of result) ≡ is_coated kind }
    {
        match kind {
            1 => Kind::Coated,
            _ => Kind::Plain,
        }
    }
}
