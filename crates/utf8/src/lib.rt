// UTF-8 by RFC 3629.
#![tactic(auto)]

ghost use Rattle.std.specs.Prelude.{◌≡◌, ◌<◌, length, take, get_or};
ghost use Rattle.utf8.specs.Utf8.{size, row, tail, allowed, character, valid_utf8};

// How many bytes the character has that begins with b, 0 where none does.
fn size(b: u8) -> usize
    ensures { result ≡ size b }
{
    match (!b).leading_zeros() {
        0 => 1,
        ones @ 2..=4 => ones as usize,
        _ => 0,
    }
}

// A byte 10xxxxxx.
fn tail(b: u8) -> bool
    ensures { result ≡ tail b }
{
    b / 64 == 2
}

// Whether v is a character number in the form whose least number is given: none is overlong, none a
// surrogate, none above 10FFFF.
fn allowed(least: u32, v: u32) -> bool
    ensures { result ≡ allowed least v }
{
    (least..=0x10FFFF).contains(&v) && !(0xD800..=0xDFFF).contains(&v)
}

// The first byte's part of a character of n bytes: its bits of the character number, and the least number
// that takes so many bytes.
#[derive(Drop)]
struct Row {
    bits: u32,
    least: u32,
}

fn row_of(n: usize, a: u8) -> Row
    ensures { result ≡ row n a }
{
    let bits = u32::from(a);
    match n {
        1 => Row {
            bits: bits % 128,
            least: 0,
        },
        2 => Row {
            bits: bits % 32,
            least: 0x80,
        },
        3 => Row {
            bits: bits % 16,
            least: 0x800,
        },
        _ => Row {
            bits: bits % 8,
            least: 0x10000,
        },
    }
}

// Whether s begins with a character, of n bytes as its first byte has it.
fn begins(s: &[u8], n: usize) -> bool
    requires s_nonzero { 0 < length s.now }
    requires n_value { n ≡ size (get_or s.now 0 0) }
    ensures { result ≡ character (take n s.now) }
{
    if n < 2 {
        return n == 1;
    }
    if s.len() < n {
        return false;
    }
    let first = row_of(n, s[0]);
    let mut v = first.bits;
    for b in &s[1..n] {
        if !tail(*b) {
            return false;
        }
        v = v * 64 + u32::from(*b) % 64;
    }
    allowed(first.least, v)
}

// Whether s is valid UTF-8.
pub fn valid_utf8(s: &[u8]) -> bool
    ensures { result ≡ valid_utf8 s.now }
{
    let mut rest = s;
    while let [first, ..] = rest {
        let n = size(*first);
        if !begins(rest, n) {
            return false;
        }
        rest = &rest[n..];
    }
    true
}
