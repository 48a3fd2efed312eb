// Build the whole table, Read an entry, Plan, and Price.
ghost use Rattle.std.specs.Prelude.{◌≡◌};
ghost use Rattle.search.specs.Read.{read_of};
ghost use Rattle.mirror.specs.Mirror.{entry_read_of};
ghost use Rattle.hokrund.specs.Calls.{build_call, plan_call, price_call};

use hokrund::table_calls;
use mirror::{HokrundAnswer, HokrundEntry, HokrundPlanned, HokrundPriced, HokrundStack};
use tariff::Tariff;

#[unsafe(no_mangle)]
pub extern "C" fn hokrund_build_table(
    kind: u8,
    n: u8,
    wanted: HokrundStack,
    groups: u32,
    size: u32,
    room: u32,
    table: &mut [u8],
    log: &mut [u32],
    list: &mut [u8],
) -> HokrundAnswer
    ensures { (table.new, log.new, list.new, result) ≡ build_call kind n wanted groups size room table.old log.old list.old }
{
    table_calls::hokrund_build_table(kind, n, wanted, groups, size, room, table, log, list)
}

#[unsafe(no_mangle)]
pub extern "C" fn hokrund_read_entry(kind: u8, n: u8, table: &[u8], index: u32) -> HokrundEntry
    ensures { result ≡ entry_read_of (read_of kind n table.now index) }
{
    table_calls::hokrund_read_entry(kind, n, table, index)
}

#[unsafe(no_mangle)]
pub extern "C" fn hokrund_plan(
    kind: u8,
    n: u8,
    wanted: HokrundStack,
    given: HokrundStack,
    groups: u32,
    table: &[u8],
    list: &mut [u8],
) -> HokrundPlanned
    ensures { (list.new, result) ≡ plan_call kind n wanted given groups table.now list.old }
{
    table_calls::hokrund_plan(kind, n, wanted, given, groups, table, list)
}

#[unsafe(no_mangle)]
pub extern "C" fn hokrund_price(
    kind: u8,
    n: u8,
    wanted: HokrundStack,
    given: HokrundStack,
    groups: u32,
    table: &[u8],
    list: &mut [u8],
    tariff: Tariff,
) -> HokrundPriced
    ensures { (list.new, result) ≡ price_call kind n wanted given groups table.now list.old tariff }
{
    table_calls::hokrund_price(kind, n, wanted, given, groups, table, list, tariff)
}
