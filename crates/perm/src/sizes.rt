// The group sizes that a set names, by rising size. They are asked for each child of a stack: a list of them would cost more, and so would asking
// each size in turn.
ghost use Rattle.std.specs.Prelude.{◌≡◌};
ghost use Rattle.std.specs.Iterator.{YieldsFirst, item_count};
ghost use Rattle.perm.specs.Sizes.{sizes_of, sizes_left};

// What is left of the set: its lowest bit is the size that comes next.
#[derive(Clone, Copy)]
pub struct Sizes {
    rest: u32,
}

impl Sizes {
    pub fn of(groups: u32) -> Sizes
        ensures { sizes_left result ≡ sizes_of groups }
    {
        Sizes { rest: groups }
    }
}

impl Iterator for Sizes {
    type Item = u8;

    ghost next_gives = { YieldsFirst sizes_left };

    ghost remaining = { item_count sizes_left };

    fn next(&mut self) -> Option<u8> {
        if self.rest == 0 {
            return None;
        }
        let k = self.rest.trailing_zeros() as u8 + 1;
        self.rest &= self.rest - 1;
        Some(k)
    }
}
