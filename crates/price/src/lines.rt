// The lines of a tariff, those at the front of its places: what is wrong with them, and what turns cost by them.
ghost use Rattle.std.specs.Prelude.{map, ◌≡◌, ℕ, ◌≤◌, length};
ghost use Rattle.base.specs.Words.{all, total, from};
ghost use Rattle.stacks.specs.Refusals.{refusal_of};
ghost use Rattle.search.specs.Plan.{plan_limit};
ghost use Rattle.tariff.specs.Tariffs.{price_limit, tariff_lines, lines_at, has_line, has_no_second, cover_refusal, tariff_refusal, price_at};

use stacks::Refusal;
use tariff::{LINE_LIMIT, Line, Tariff};

#[tactic(auto, unfolding(tariff::specs::Tariffs::lines_at), using(crate::proofs::Chains::tally_is))]
fn lines_at(lines: &[Line], k: u8) -> usize
    ensures { result ≡ lines_at lines.now k }
{
    lines.iter().filter(|line| line.covers(k)).count()
}

// Every size from 1 to the last is looked at for a line before one is for a second.
fn check_cover(lines: &[Line], last: u8) -> Result<(), Refusal>
    ensures { refusal_of result ≡ cover_refusal lines.now (from 1 last) }
{
    if !(1..=last).all(|k| 1 <= lines_at(lines, k)) {
        return Err(Refusal::NoLine);
    }
    if !(1..=last).all(|k| lines_at(lines, k) <= 1) {
        return Err(Refusal::TwoLines);
    }
    Ok(())
}

pub(crate) fn check_tariff(tariff: &Tariff, last: u8) -> Result<(), Refusal>
    ensures { refusal_of result ≡ tariff_refusal last tariff.now }
{
    if LINE_LIMIT < tariff.count as usize {
        return Err(Refusal::Line);
    }
    let lines = tariff.listed();
    if !lines.iter().all(|line| line.fits(last)) {
        return Err(Refusal::Line);
    }
    check_cover(lines, last)
}

fn price_at(lines: &[Line], k: u8) -> u32
    ensures { result ≡ price_at lines.now k }
{
    lines
        .iter()
        .find(|line| line.covers(k))
        .map_or(0, |line| line.price)
}

// The sum over the turns, in thousandths of a penny. That it fits is a matter of the two limits.
#[tactic(auto, using(crate::proofs::Chains::total_is))]
pub(crate) fn sum_of(lines: &[Line], turns: &[u8]) -> u32
    requires { (length turns.now ≤ plan_limit) × ((k : ℕ) → price_at lines.now k ≤ price_limit) }
    ensures { result ≡ total (map (price_at lines.now) turns.now) }
{
    turns.iter().map(|k| price_at(lines, *k)).sum()
}
