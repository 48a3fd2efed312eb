// Build the whole table, Read an entry, Plan, and Price.
ghost use Rattle.std.specs.Prelude.{◌≡◌};
ghost use Rattle.search.specs.Read.{read_of};
ghost use Rattle.mirror.specs.Mirror.{entry_read_of};
ghost use Rattle.hokrund.specs.Calls.{build_call, plan_call, price_call};

use mirror::{HokrundAnswer, HokrundEntry, HokrundPlanned, HokrundPriced, HokrundStack};
use search::Terms;
use tariff::Tariff;

pub fn hokrund_build_table(
    kind: u8,
    n: u8,
    wanted: HokrundStack,
    groups: u32,
    size: u32,
    room: u32,
    table: &mut [u8],
    log: &mut [u32],
    list: &mut [u8],
) -> HokrundAnswer
    ensures { (table.new, log.new, list.new, result) ≡ build_call kind n wanted groups size room table.old log.old list.old }
{
    let wanted = wanted.places;
    let terms = Terms {
        kind,
        n,
        wanted,
        groups,
        size,
        room,
    };
    build::build::build_table(terms, table, log, list).into()
}

pub fn hokrund_read_entry(kind: u8, n: u8, table: &[u8], index: u32) -> HokrundEntry
    ensures { result ≡ entry_read_of (read_of kind n table.now index) }
{
    plan::read::read_entry(kind, n, table, index).into()
}

pub fn hokrund_plan(
    kind: u8,
    n: u8,
    wanted: HokrundStack,
    given: HokrundStack,
    groups: u32,
    table: &[u8],
    list: &mut [u8],
) -> HokrundPlanned
    ensures { (list.new, result) ≡ plan_call kind n wanted given groups table.now list.old }
{
    plan::plan::plan(kind, n, wanted.places, given.places, groups, table, list).into()
}

pub fn hokrund_price(
    kind: u8,
    n: u8,
    wanted: HokrundStack,
    given: HokrundStack,
    groups: u32,
    table: &[u8],
    list: &mut [u8],
    tariff: Tariff,
) -> HokrundPriced
    ensures { (list.new, result) ≡ price_call kind n wanted given groups table.now list.old tariff }
{
    price::price::price(
        kind,
        n,
        wanted.places,
        given.places,
        groups,
        table,
        list,
        tariff,
    )
    .into()
}
