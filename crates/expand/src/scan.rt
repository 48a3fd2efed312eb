// What a call of Expand does not change, copied from the job, so that no function that runs for a stack or a child takes the job.

use perm::groups::TurnSet;

// The job's fields that Expand needs, the count of segments and of moves, this segment, the entry of the level before and this level's. The count of moves
// says how many children stand at the front of their array, as there is no heap.
#[derive(Clone, Copy)]
pub(crate) struct Scan {
    pub set: TurnSet,
    pub size: u32,
    pub room: u32,
    pub segments: u32,
    pub turns: u32,
    pub j: u32,
    pub level: u8,
    pub from: u8,
    pub mark: u8,
}
