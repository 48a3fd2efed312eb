// The table of ones: how many ones each 12-bit set has.
#![tactic(auto)]

ghost use Rattle.std.specs.Prelude.{◌≡◌};
ghost use Rattle.ones.specs.Ones.{ones_table};

mod constant;

// The sets of twelve panes, each a bit.
pub const SETS: usize = 4096;

// Lent in place: a constant would be laid out anew wherever code names it.
pub fn table() -> &'static [u8; SETS]
    ensures { result.now ≡ ones_table }
{
    &constant::ONES
}
