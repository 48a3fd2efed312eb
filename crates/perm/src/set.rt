// A set of panes as bits: pane x is the bit of weight 2^(x - 1).
ghost use Rattle.std.specs.Prelude.{◌&&◌, ◌≡◌, ◌+◌, ◌-◌, ◌%◌, ◌^◌, ◌≤◌, ◌<◌, leb, eqb};
ghost use Rattle.std.specs.Int.Count.{ones};
ghost use Rattle.base.specs.Words.{bit};
ghost use Rattle.ones.specs.Ones.{set_count};
ghost use Rattle.perm.specs.Set.{NthOne};
ghost use Rattle.stacks.specs.Stack.{stack_places};

// How many panes of a set have a number of at most x. The one place that counts ones, by the table.
pub(crate) fn ones_below(set: u32, x: u32) -> u32
    requires { (set < set_count) × (x ≤ stack_places) }
    ensures { result ≡ ones (set % 2 ^ x) }
{
    let mask = (1 << x) - 1;
    ones::table()[(set & mask) as usize] as u32
}

// Whether a pane is 1 to n and not yet in the set.
#[tactic(auto, using(base::proofs::Bits::bit_is))]
pub(crate) fn is_new(n: u8, met: u32, pane: u32) -> bool
    requires { n ≤ stack_places }
    ensures { result ≡ (leb 1 pane && leb pane n && eqb (bit met (pane - 1)) 0) }
{
    (1..=n as u32).contains(&pane) && (met >> (pane - 1)) % 2 == 0
}

// The place of the set's one that has d ones below it: it is no lower than d, and no more than `gone` places higher. It is higher by one for each
// place up to which at most d ones stand. All are asked: which is the first cannot be foreseen, and a wrong guess costs more.
pub(crate) fn nth_one(set: u32, d: u32, gone: u32) -> u32
    requires { (set < set_count) × (d + gone < stack_places) × (d < ones (set % 2 ^ (d + gone + 1))) }
    ensures { NthOne set d result }
{
    let mut v = d;
    for x in d + 1..=d + gone {
        if ones_below(set, x) <= d {
            v += 1;
        }
    }
    v
}
