// Stacks, their numbering and turns, written apart from the library. A pane is a byte, DOWN more for coat down. A stack has twelve places, the
// top first, 0 below its n panes.
ghost use Rattle.std.specs.Prelude.{◌<◌, ◌≤◌};

use trial::frame::Kind;

pub const PLACES: usize = 12;

const DOWN: u8 = 128;

pub type Stack = [u8; PLACES];

// How many panes below place p are smaller.
fn smaller_below(stack: &Stack, n: usize, p: usize) -> usize
    requires { (p < n) × (n ≤ 12) }
{
    let pane = stack[p] % DOWN;
    stack[p + 1..n]
        .iter()
        .filter(|&&below| below % DOWN < pane)
        .count()
}

pub fn rank(kind: Kind, n: usize, stack: &Stack) -> usize
    requires { n ≤ 12 }
{
    let mut order: usize = 0;
    let mut coats: usize = 0;
    for p in 0..n {
        order = order
            .wrapping_mul(n - p)
            .wrapping_add(smaller_below(stack, n, p));
        coats = coats
            .wrapping_mul(2)
            .wrapping_add((stack[p] / DOWN) as usize);
    }
    match kind {
        Kind::Plain => order,
        Kind::Coated => order.wrapping_mul(1 << n).wrapping_add(coats),
    }
}

// A pane that has so many smaller ones comes above some: those that are not smaller become one larger.
fn raise(below: &mut [u8], smaller: u8) {
    for pane in below {
        if *pane > smaller {
            *pane = pane.wrapping_add(1);
        }
    }
}

// The order at a place among all orders, from the bottom up.
fn order_at(n: usize, place: usize) -> Stack
    requires { n ≤ 12 }
{
    let mut stack = [0; PLACES];
    let mut left = place;
    for p in (0..n).rev() {
        let smaller = (left % (n - p)) as u8;
        left /= n - p;
        raise(&mut stack[p + 1..n], smaller);
        stack[p] = smaller + 1;
    }
    stack
}

// The coats that an index has, the lowest bit at the bottom.
fn put_coats(stack: &mut [u8], coats: usize) {
    let mut left = coats;
    for pane in stack.iter_mut().rev() {
        *pane = *pane % DOWN + (left % 2) as u8 * DOWN;
        left /= 2;
    }
}

pub fn unrank(kind: Kind, n: usize, index: usize) -> Stack
    requires { n ≤ 12 }
{
    match kind {
        Kind::Plain => order_at(n, index),
        Kind::Coated => {
            let mut stack = order_at(n, index >> n);
            put_coats(&mut stack[..n], index);
            stack
        }
    }
}

// Whether a set of groups names size k: the first of its bits is size 1.
pub fn lifts(groups: u32, k: usize) -> bool {
    1 <= k && k <= 32 && (groups >> (k - 1)) % 2 == 1
}

fn flip(group: &mut [u8]) {
    for pane in group {
        *pane ^= DOWN;
    }
}

// Turn k. Where a plan names more panes than there are places, nothing is turned.
pub fn turned(kind: Kind, stack: &Stack, k: usize) -> Stack {
    let mut next = *stack;
    if k <= PLACES {
        next[..k].reverse();
        if kind == Kind::Coated {
            flip(&mut next[..k]);
        }
    }
    next
}

fn signed(pane: u8) -> i8 {
    let up = (pane % DOWN) as i8;
    if pane < DOWN { up } else { -up }
}

// The twelve signed places in which a stack travels.
pub fn places(stack: &Stack) -> [i8; PLACES] {
    let mut places = [0; PLACES];
    for (place, &pane) in places.iter_mut().zip(stack) {
        *place = signed(pane);
    }
    places
}
