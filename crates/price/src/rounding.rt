// Rounding to the penny: the one leaf that knows how.
ghost use Rattle.std.specs.Prelude.{◌≡◌};
ghost use Rattle.tariff.specs.Rounding.{rounded};

#[tactic(auto, unfolding(tariff::specs::Rounding::rounded))]
pub(crate) fn rounded(thousandths: u32) -> u32
    ensures { result ≡ rounded thousandths }
{
    let pennies = thousandths / 1000;
    if thousandths % 1000 < 500 {
        pennies
    } else {
        pennies + 1
    }
}
