// Hexadecimal digits and bytes, each way.
ghost use Rattle.std.specs.Prelude.{◌≡◌, ◌+◌, ◌*◌, ◌<◌, ◌≤◌, length, take, drop, slice_index};
ghost use Rattle.base.specs.Words.{all};
ghost use Rattle.text.specs.Hex.{is_digit, digit_of, digit_char, is_pairs, bytes_of, hex_of, number_of};
ghost use Rattle.text.specs.Written.{Put};

#[tactic(auto, unfolding(text::specs::Hex::is_digit))]
pub(crate) fn is_digit(c: u8) -> bool
    ensures { result ≡ is_digit c }
{
    matches!(c, b'0'..=b'9' | b'a'..=b'f')
}

#[tactic(auto, unfolding(text::specs::Hex::digit_of, text::specs::Hex::is_digit))]
pub(crate) fn digit_of(c: u8) -> u8
    ensures { result ≡ digit_of c }
{
    match c {
        b'0'..=b'9' => c - b'0',
        b'a'..=b'f' => c - b'a' + 10,
        _ => 0,
    }
}

#[tactic(auto, unfolding(text::specs::Hex::digit_char))]
pub(crate) fn digit_char(d: u8) -> u8
    requires { d < 16 }
    ensures { result ≡ digit_char d }
{
    if d < 10 { b'0' + d } else { b'a' + (d - 10) }
}

pub(crate) fn all_digits(text: &[u8]) -> bool
    ensures { result ≡ all is_digit text.now }
{
    text.iter().all(|&c| is_digit(c))
}

#[tactic(auto, unfolding(text::specs::Hex::is_pairs))]
pub(crate) fn is_pairs(text: &[u8]) -> bool
    ensures { result ≡ is_pairs text.now }
{
    text.len() % 2 == 0 && all_digits(text)
}

// Byte i of the pairs.
pub(crate) fn byte_at(text: &[u8], i: usize) -> u8
    requires { 2 * i + 1 < length text.now }
    ensures { result ≡ slice_index (bytes_of text.now) i }
{
    digit_of(text[2 * i]) * 16 + digit_of(text[2 * i + 1])
}

// The number in the four bytes from byte i on, high byte first.
pub(crate) fn number_at(text: &[u8], i: usize) -> u32
    requires { 2 * (i + 4) ≤ length text.now }
    ensures { result ≡ number_of (take 4 (drop i (bytes_of text.now))) }
{
    u32::from_be_bytes([
        byte_at(text, i),
        byte_at(text, i + 1),
        byte_at(text, i + 2),
        byte_at(text, i + 3),
    ])
}

// The digits of bytes, from place at on. The answer is the place after them.
pub(crate) fn put_bytes(out: &mut [u8], at: usize, bytes: &[u8]) -> usize
    requires { at + 2 * length bytes.now ≤ length out.old }
    ensures { Put (hex_of bytes.now) at out.old out.new result }
{
    for (i, &byte) in bytes.iter().enumerate() {
        out[at + 2 * i] = digit_char(byte / 16);
        out[at + 2 * i + 1] = digit_char(byte % 16);
    }
    at + 2 * bytes.len()
}
