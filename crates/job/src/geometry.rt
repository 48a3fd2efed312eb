// The geometry of a job, from what Begin was given. Each function asks that Begin would refuse nothing: no type says it, as a job that is handed in
// holds any terms, and one made of them would be made anew in each call, by a function that asks the same.
ghost use Rattle.std.specs.Prelude.{◌≡◌, ◌*◌, ◌≤◌};
ghost use Rattle.perm.specs.Panes.{kind_of};
ghost use Rattle.search.specs.Segments.{segment_limit};
ghost use Rattle.search.specs.Terms.{G, m, begin_refusal};

use perm::groups::TurnSet;
use perm::panes::Panes;
use search::Terms;
use twobit::segment;

// The kind and n.
#[tactic(auto, using(crate::proofs::Begun::begun_terms))]
pub fn panes_of(terms: Terms) -> Panes
    requires { begin_refusal terms ≡ 0 }
    ensures { (kind_of result ≡ terms.kind) × (result.n ≡ terms.n) }
{
    Panes::of(terms.kind, terms.n)
}

// The set of group sizes, of them.
#[tactic(auto, using(crate::proofs::Begun::begun_terms))]
pub fn turns_of(terms: Terms) -> TurnSet
    requires { begin_refusal terms ≡ 0 }
    ensures { (kind_of result.panes ≡ terms.kind) × (result.panes.n ≡ terms.n) × (result.groups ≡ terms.groups) }
{
    TurnSet::of(panes_of(terms), terms.groups)
}

// G.
#[tactic(auto, using(crate::proofs::Begun::begun_terms))]
pub fn segment_count_of(terms: Terms) -> u32
    requires { begin_refusal terms ≡ 0 }
    ensures { (result ≡ G terms) × (result ≤ segment_limit) }
{
    let count = panes_of(terms).stack_count();
    segment::segment_count(count, terms.size)
}

// m of segment j.
#[tactic(auto, using(crate::proofs::Begun::begun_terms))]
pub fn stack_count_at(terms: Terms, j: u32) -> u32
    requires { begin_refusal terms ≡ 0 }
    ensures { result ≡ m terms j }
{
    let count = panes_of(terms).stack_count();
    segment::stack_count_in(count, terms.size, j)
}

// How many numbers the log area has.
#[tactic(auto, using(crate::proofs::Begun::begun_terms))]
pub fn log_length(terms: Terms) -> usize
    requires { begin_refusal terms ≡ 0 }
    ensures { result ≡ G terms * terms.room }
{
    (segment_count_of(terms) as usize) * (terms.room as usize)
}
