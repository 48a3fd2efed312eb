// Two-bit entries in bytes: their succession, reading, setting, marking and blanking.
ghost use Rattle.std.specs.Prelude.{◌≡◌, ◌<◌, ◌/◌, length, replicate};
ghost use Rattle.search.specs.Entries.{entry_at, set_entry, next_entry};
ghost use Rattle.twobit.specs.Mark.{Marked};

// The entry of a stack that no level has found yet.
pub const UNSEEN: u8 = 3;

// A case for each entry. A match on a number must have a default besides: nothing comes to it, as the contract lets nothing above 3 by.
#[tactic(auto, unfolding(search::specs::Entries::next_entry))]
pub fn next_entry(v: u8) -> u8
    requires { v < 4 }
    ensures { result ≡ next_entry v }
{
    match v {
        0 => 1,
        1 => 2,
        2 => 0,
        3 => 1,
        _ => 1,
    }
}

pub fn get_entry(bytes: &[u8], i: u32) -> u8
    requires { i / 4 < length bytes.now }
    ensures { result ≡ entry_at bytes.now i }
{
    let at = (i / 4) as usize;
    let down = 2 * (i % 4);
    (bytes[at] >> down) % 4
}

// The weight of the old entry goes and that of the new one comes, by shifts and with no branch.
pub fn set_entry(bytes: &mut [u8], i: u32, v: u8)
    requires { (v < 4) × (i / 4 < length bytes.old) }
    ensures { bytes.new ≡ set_entry bytes.old i v }
{
    let at = (i / 4) as usize;
    let shift = 2 * (i % 4);
    let byte = bytes[at];
    let old = (byte >> shift) % 4;
    bytes[at] = byte - (old << shift) + (v << shift);
}

// The one leaf that marks: an unseen entry gets the label, and the answer says whether it was unseen.
pub fn mark(bytes: &mut [u8], i: u32, label: u8) -> bool
    requires { (label < 4) × (i / 4 < length bytes.old) }
    ensures { Marked bytes.old i label bytes.new result }
{
    let unseen = get_entry(bytes, i) == UNSEEN;
    if unseen {
        set_entry(bytes, i, label);
    }
    unseen
}

// Every byte becomes 255: all its entries are unseen.
pub fn blank_bytes(bytes: &mut [u8])
    ensures { bytes.new ≡ replicate (length bytes.old) 255 }
{
    bytes.fill(255);
}
