// Changed lists: how many bytes one takes, and the bit of a stack in it.
ghost use Rattle.std.specs.Prelude.{◌≡◌, ◌<◌, ◌/◌, length};
ghost use Rattle.search.specs.Changed.{list_bytes, bit_at};

#[tactic(auto, unfolding(search::specs::Changed::list_bytes))]
pub fn list_bytes(m: u32) -> u32
    ensures { result ≡ list_bytes m }
{
    m.div_ceil(8)
}

#[tactic(auto, unfolding(search::specs::Changed::bit_at))]
pub fn get_bit(list: &[u8], i: u32) -> bool
    requires { i / 8 < length list.now }
    ensures { result ≡ bit_at list.now i }
{
    let at = (i / 8) as usize;
    (list[at] >> (i % 8)) % 2 == 1
}
