// Load a segment: its changed list.
ghost use Rattle.std.specs.Prelude.{◌&&◌, ◌≡◌, ◌+◌, ◌^◌, ◌<◌, ◌≤◌, ltb, eqb, length};
ghost use Rattle.stacks.specs.Refusals.{refusal_of};
ghost use Rattle.search.specs.Changed.{byte_of, list_bytes, list_of};
ghost use Rattle.search.specs.Entries.{bytes_for, entry_at};
ghost use Rattle.search.specs.Load.{load_refusal, load_of};
ghost use Rattle.search.specs.Results.{as_answer};
ghost use Rattle.search.specs.Segments.{most_size};

use job::{geometry, refusals};
use search::Job;
use stacks::Refusal;
use twobit::{entry, list};

#[tactic(auto, unfolding(search::specs::Load::load_refusal, stacks::specs::Refusals::number), using(crate::proofs::Rows::segment_rows))]
fn check_load(job: &Job, b: u32, bytes: usize, listed: usize) -> Result<(), Refusal>
    ensures { refusal_of result ≡ load_refusal job.now b bytes listed }
{
    refusals::check_segment(job, job.in_reverse(), b, bytes)?;
    let length = list::list_bytes(geometry::stack_count_at(job.terms, b));
    if listed != length as usize {
        return Err(Refusal::Length);
    }
    Ok(())
}

// The parents of a segment: those of its stacks that have the entry of the level before.
#[derive(Drop)]
struct Parents<'a> {
    segment: &'a [u8],
    stacks: u32,
    entry: u8,
    ghost long: { length segment.now ≡ bytes_for stacks },
    ghost few: { stacks ≤ most_size },
}

impl<'a> Parents<'a> {
    // Stack i is one.
    #[tactic(auto, using(search::proofs::EntryLaws::byte_inside))]
    fn has(&self, i: u32) -> bool
        ensures { result ≡ (ltb i self.now.stacks && eqb (entry_at self.now.segment.now i) self.now.entry) }
    {
        i < self.stacks && entry::get_entry(self.segment, i) == self.entry
    }

    // The bits of the eight stacks from first on, the low bit first.
    fn byte(&self, first: u32) -> u8
        requires { first + 8 < 2 ^ 32 }
        ensures { result ≡ byte_of (λ t. ltb (first + t) self.now.stacks && eqb (entry_at self.now.segment.now (first + t)) self.now.entry) }
    {
        let mut byte: u8 = 0;
        for t in 0..8 {
            if self.has(first + t) {
                byte += 1 << t;
            }
        }
        byte
    }

    // The changed list.
    #[tactic(auto, unfolding(search::specs::Changed::list_bytes))]
    fn fill(&self, list: &mut [u8])
        requires { length list.old ≡ list_bytes self.now.stacks }
        ensures { list.new ≡ list_of self.now.stacks (λ i. eqb (entry_at self.now.segment.now i) self.now.entry) }
    {
        for (k, byte) in list.iter_mut().enumerate() {
            *byte = self.byte(8 * (k as u32));
        }
    }
}

// Load.
#[tactic(auto, unfolding(search::specs::JobState::directed), using(crate::proofs::Loading::load_rows))]
pub fn load(job: &mut Job, b: u32, segment: &[u8], list: &mut [u8]) -> Result<(), Refusal>
    ensures { (list.new, as_answer job.new result) ≡ load_of job.old b segment.now list.old }
{
    check_load(job, b, segment.len(), list.len())?;
    let parents = Parents {
        segment,
        stacks: geometry::stack_count_at(job.terms, b),
        entry: (job.phase.level() - 1) % 3,
    };
    parents.fill(list);
    job.loaded = b as u8;
    Ok(())
}
