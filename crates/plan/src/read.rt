// Read an entry.
ghost use Rattle.std.specs.Prelude.{◌≡◌};
ghost use Rattle.stacks.specs.Refusals.{refusal_of};
ghost use Rattle.search.specs.Read.{read_refusal, read_of};
ghost use Rattle.search.specs.Results.{as_entry};

use perm::panes::Panes;
use stacks::Refusal;
use twobit::{entry, segment};

#[tactic(auto, unfolding(stacks::specs::Refusals::number), using(crate::proofs::Refusing::read_rows))]
fn check_read(kind: u8, n: u8, bytes: usize, index: u32) -> Result<(), Refusal>
    ensures { refusal_of result ≡ read_refusal kind n bytes index }
{
    let count = Panes::new(kind, n)?.stack_count();
    if bytes != segment::bytes_for(count) as usize {
        return Err(Refusal::Length);
    }
    if count <= index {
        return Err(Refusal::IndexOrTurn);
    }
    Ok(())
}

// Read an entry.
#[tactic(auto, unfolding(search::specs::Read::read_of), using(crate::proofs::Refusing::entry_rows))]
pub fn read_entry(kind: u8, n: u8, table: &[u8], index: u32) -> Result<u8, Refusal>
    ensures { as_entry result ≡ read_of kind n table.now index }
{
    check_read(kind, n, table.len(), index)?;
    Ok(entry::get_entry(table, index))
}
