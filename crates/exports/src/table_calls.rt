// Build the whole table, Read an entry, Plan, and Price.
ghost use Rattle.std.specs.Prelude.{◌≡◌};
ghost use Rattle.search.specs.Read.{read_of};
ghost use Rattle.mirror.specs.Mirror.{entry_read_of};
ghost use Rattle.exports.specs.Outcomes.{Builds, Plans, Prices};

use hokrund::table_calls;
use mirror::{HokrundAnswer, HokrundEntry, HokrundPlanned, HokrundPriced, HokrundStack};
use tariff::Tariff;

pub fn build_table(
    kind: u8,
    n: u8,
    wanted: HokrundStack,
    groups: u32,
    size: u32,
    room: u32,
    table: &mut [u8],
    log: &mut [u32],
    list: &mut [u8],
) -> HokrundAnswer
    ensures { Builds kind n wanted groups size room table.old log.old list.old (table.new, log.new, list.new, result) }
{
    table_calls::hokrund_build_table(kind, n, wanted, groups, size, room, table, log, list)
}

pub fn read_entry(kind: u8, n: u8, table: &[u8], index: u32) -> HokrundEntry
    ensures { result ≡ entry_read_of (read_of kind n table.now index) }
{
    table_calls::hokrund_read_entry(kind, n, table, index)
}

pub fn plan(
    kind: u8,
    n: u8,
    wanted: HokrundStack,
    given: HokrundStack,
    groups: u32,
    table: &[u8],
    list: &mut [u8],
) -> HokrundPlanned
    ensures { Plans kind n wanted given groups table.now list.old (list.new, result) }
{
    table_calls::hokrund_plan(kind, n, wanted, given, groups, table, list)
}

pub fn price(
    kind: u8,
    n: u8,
    wanted: HokrundStack,
    given: HokrundStack,
    groups: u32,
    table: &[u8],
    list: &mut [u8],
    tariff: Tariff,
) -> HokrundPriced
    ensures { Prices kind n wanted given groups table.now list.old tariff (list.new, result) }
{
    table_calls::hokrund_price(kind, n, wanted, given, groups, table, list, tariff)
}
