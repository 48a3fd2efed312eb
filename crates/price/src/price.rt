// Price.
ghost use Rattle.std.specs.Prelude.{◌≡◌};
ghost use Rattle.tariff.specs.Price.{price_of};
ghost use Rattle.tariff.specs.Results.{as_priced};

use crate::{lines, rounding};
use perm::kind::Kind;
use stacks::{PLACES, Refusal};
use tariff::{Cost, Tariff};

// Price. The list is written when neither Plan nor the tariff refuses.
pub fn price(
    kind: u8,
    n: u8,
    wanted: [i8; PLACES],
    given: [i8; PLACES],
    groups: u32,
    table: &[u8],
    list: &mut [u8],
    tariff: Tariff,
) -> Result<Cost, Refusal>
    ensures { (list.new, as_priced result) ≡ price_of kind n wanted given groups table.now list.old tariff }
{
    let turns = plan::plan::draft_plan(kind, n, wanted, given, groups, table, list.len())?;
    lines::check_tariff(&tariff, Kind::like(kind).last_turn(n))?;
    let pennies = rounding::rounded(lines::sum_of(tariff.listed(), turns.as_slice()));
    turns.copy_to(list);
    Ok(Cost {
        turns: turns.len() as u32,
        pennies,
    })
}
