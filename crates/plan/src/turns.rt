// The turns of a plan, in a local list.
ghost use Rattle.std.specs.Prelude.{◌≡◌, ◌<◌, ◌≤◌, [], ◌∷◌, ◌++◌, length, take, drop};
ghost use Rattle.search.specs.Plan.{plan_limit};

use search::PLAN_LIMIT;

// As many turns as a plan may have, and how many of them there are: there is no heap. The fields are open, as the clauses name them. It is a list of bytes
// alone, as a struct that holds an array of a type parameter owes at each call that its size is below 2^63.
#[derive(Clone, Copy)]
pub struct Turns {
    pub list: [u8; PLAN_LIMIT],
    pub count: usize,
    ghost few: { count ≤ plan_limit },
}

impl Turns {
    pub(crate) fn new() -> Self
        ensures { take result.count result.list ≡ [] }
    {
        Turns {
            list: [0; PLAN_LIMIT],
            count: 0,
        }
    }

    pub(crate) fn push(&mut self, k: u8)
        requires { length (take self.old.count self.old.list) < plan_limit }
        ensures { take self.new.count self.new.list ≡ take self.old.count self.old.list ++ k ∷ [] }
    {
        self.list[self.count] = k;
        self.count += 1;
    }

    pub fn len(&self) -> usize
        ensures long { result ≡ length (take self.now.count self.now.list) }
        ensures within { result ≤ plan_limit }
    {
        self.count
    }

    pub fn as_slice(&self) -> &[u8]
        ensures { result.now ≡ take self.now.count self.now.list }
    {
        &self.list[..self.count]
    }

    // They come to the front of the list, and the bytes past them stay.
    pub fn copy_to(&self, list: &mut [u8])
        requires { length (take self.now.count self.now.list) ≤ length list.old }
        ensures { list.new ≡ take self.now.count self.now.list ++ drop (length (take self.now.count self.now.list)) list.old }
    {
        list[..self.count].copy_from_slice(self.as_slice());
    }
}
