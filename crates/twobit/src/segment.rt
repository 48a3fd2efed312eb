// How many bytes, segments and stacks there are.
ghost use Rattle.std.specs.Prelude.{◌≡◌, ◌<◌};
ghost use Rattle.search.specs.Entries.{bytes_for};
ghost use Rattle.search.specs.Segments.{segment_count, stack_count_in, is_segment_size, is_log_room};

use search::{LEAST_ROOM, LEAST_SIZE, MOST_ROOM, MOST_SIZE, SEGMENT_LIMIT};

#[tactic(auto, unfolding(search::specs::Entries::bytes_for))]
pub fn bytes_for(m: u32) -> u32
    ensures { result ≡ bytes_for m }
{
    m.div_ceil(4)
}

pub fn segment_count(count: u32, size: u32) -> u32
    requires { 0 < size }
    ensures { result ≡ segment_count count size }
{
    count.div_ceil(size)
}

// Past the last segment the start is at count or above it, and there is none. It might pass 32 bits, and is computed in 64.
#[tactic(auto, unfolding(search::specs::Segments::stack_count_in))]
pub fn stack_count_in(count: u32, size: u32, j: u32) -> u32
    ensures { result ≡ stack_count_in count size j }
{
    let start = j as u64 * size as u64;
    let left = (count as u64).saturating_sub(start) as u32;
    left.min(size)
}

#[tactic(auto, unfolding(search::specs::Segments::is_segment_size))]
pub fn is_segment_size(count: u32, size: u32) -> bool
    ensures { result ≡ is_segment_size count size }
{
    size % 4 == 0
        && (LEAST_SIZE..=MOST_SIZE).contains(&size)
        && segment_count(count, size) as usize <= SEGMENT_LIMIT
}

#[tactic(auto, unfolding(search::specs::Segments::is_log_room))]
pub fn is_log_room(room: u32) -> bool
    ensures { result ≡ is_log_room room }
{
    (LEAST_ROOM..=MOST_ROOM).contains(&room)
}
