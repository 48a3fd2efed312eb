// Frames: what a line says, or its first refusal in document 01's order.
ghost use Rattle.std.specs.Prelude.{◌≡◌, ◌+◌, ◌*◌, ◌≤◌, true, false, length, take, drop, MatchResult};
ghost use Rattle.stacks.specs.Refusals.{as_stacked};
ghost use Rattle.stacks.specs.Stack.{stack_places};
ghost use Rattle.stacks.specs.declared.refusal.Refusal.TheVariants.{Frame};
ghost use Rattle.perm.specs.Panes.{kind_of};
ghost use Rattle.text.specs.Frame.{frame_limit, is_frame, pane_of, places_of, kind_in, panes_in, fields_refusal, first_with, first_of, as_first, later_of};
ghost use Rattle.text.specs.Hex.{bytes_of};
ghost use Rattle.text.specs.Kept.{text_of};

use crate::hex;
use perm::panes::Panes;
use perm::valid;
use stacks::{PLACES, Refusal};
use text::{FirstFrame, Line, STACK_LIMIT};
use twobit::segment;

// The characters of a frame: within the limit, and pairs of digits.
pub(crate) fn frame_text(line: &Line) -> Result<&[u8], Refusal>
    ensures { MatchResult result (λ text. (text.now ≡ text_of line.now) × (length text.now ≤ frame_limit) × (is_frame (text_of line.now) ≡ true)) (λ r. (r ≡ Frame) × (is_frame (text_of line.now) ≡ false)) }
{
    match line.text() {
        Some(text) if hex::is_pairs(text) => Ok(text),
        _ => Err(Refusal::Frame),
    }
}

// The pane that a byte says: its number, coat down from 80 hexadecimal on.
pub(crate) fn pane_of(byte: u8) -> i8
    ensures { result ≡ pane_of byte }
{
    let up = (byte % 128) as i8;
    if byte < 128 { up } else { -up }
}

// The places of the n panes that the bytes from byte i on say.
pub(crate) fn places_at(text: &[u8], i: usize, n: u8) -> [i8; PLACES]
    requires { (n ≤ stack_places) × (2 * (i + n) ≤ length text.now) }
    ensures { result ≡ places_of (take n (drop i (bytes_of text.now))) }
{
    let mut places = [0; PLACES];
    for p in 0..n as usize {
        places[p] = pane_of(hex::byte_at(text, i + p));
    }
    places
}

// What the first frame's characters say after the kind and n, or what is left to refuse.
pub(crate) fn fields(panes: Panes, text: &[u8]) -> Result<FirstFrame, Refusal>
    requires { (kind_of panes ≡ kind_in (bytes_of text.now)) × (panes.n ≡ panes_in (bytes_of text.now)) }
    ensures { as_first result ≡ first_with (fields_refusal (kind_of panes) panes.n (bytes_of text.now)) (bytes_of text.now) }
{
    let n = panes.n;
    if text.len() / 2 != n as usize + 6 {
        return Err(Refusal::Frame);
    }
    let stacks = panes.stack_count();
    if stacks > STACK_LIMIT {
        return Err(Refusal::Frame);
    }
    let wanted = places_at(text, 2, n);
    if !panes.is_stack(wanted) {
        return Err(Refusal::Stack);
    }
    let size = hex::number_at(text, n as usize + 2);
    if !segment::is_segment_size(stacks, size) {
        return Err(Refusal::Size);
    }
    Ok(FirstFrame {
        kind: hex::byte_at(text, 0),
        n,
        wanted,
        size,
    })
}

// The first frame.
pub fn first_frame(line: &Line) -> Result<FirstFrame, Refusal>
    ensures { as_first result ≡ first_of (text_of line.now) }
{
    let text = frame_text(line)?;
    let count = text.len() / 2;
    if count < 2 {
        return Err(Refusal::Frame);
    }
    let kind = hex::byte_at(text, 0);
    let n = hex::byte_at(text, 1);
    let panes = Panes::new(kind, n)?;
    fields(panes, text)
}

// The stack of a later frame. With more panes than places there is none. The stack's test is the one by numbers, as later_refusal of
// text/specs/Frame.antt asks is_stack of every kind and n, also of those that are no Panes (a kind of 7, no panes, 12 coated ones).
pub fn later_frame(kind: u8, n: u8, line: &Line) -> Result<[i8; PLACES], Refusal>
    ensures { as_stacked result ≡ later_of kind n (text_of line.now) }
{
    let text = frame_text(line)?;
    let panes = n as usize;
    if text.len() / 2 != panes {
        return Err(Refusal::Frame);
    }
    if panes > PLACES {
        return Err(Refusal::Stack);
    }
    let stack = places_at(text, 0, n);
    if !valid::is_stack(kind, n, stack) {
        return Err(Refusal::Stack);
    }
    Ok(stack)
}
