// Keys as hex digits.
ghost use Rattle.std.specs.Prelude.{◌≡◌, ◌++◌, ◌≤◌, ◌/◌, true, length, drop};
ghost use Rattle.lists.specs.Lists.{each};
ghost use Rattle.keytable.specs.Table.{between, digit, hex_digit, valid_key, decoded, key_in, found};
ghost use Rattle.refusal.specs.Lent.{Answers};

use crate::checks::sized_key;
use crate::classes::all;
use refusal::Refusal;

fn between(low: u8, high: u8, b: u8) -> bool
    ensures { result ≡ between low high b }
{
    (low..=high).contains(&b)
}

// The number of a hex digit, 16 for any other byte.
fn digit(b: u8) -> u8
    ensures { result ≡ digit b }
{
    if between(48, 57, b) {
        b - 48
    } else if between(65, 70, b) {
        b - 65 + 10
    } else if between(97, 102, b) {
        b - 97 + 10
    } else {
        16
    }
}

// Whether b is a hex digit: the bits from 0 on of the number stand for the bytes from 30 hex on. Looked up and not
// compared, since which of the three ranges the next digit of a key is in can't be foretold: with the library's
// `is_ascii_hexdigit` the table's test took two to three times as long, and a tenth longer with a range's `contains`.
pub(crate) fn hex_digit(b: u8) -> bool
    ensures { result ≡ hex_digit b }
{
    if b < 48 || b > 102 {
        return false;
    }
    (0x7E0000007E03FFu64 >> (b - 48) as u64) % 2 == 1
}

// Whether s is 1 to 64 pairs of hex digits.
pub(crate) fn valid_key(s: &[u8]) -> bool
    ensures { result ≡ valid_key s.now }
{
    sized_key(s.len()) && all(hex_digit, s)
}

// The bytes that pairs of hex digits stand for, at the front of out.
fn decode(text: &[u8], out: &mut [u8])
    requires text_value { each hex_digit text.now ≡ true }
    requires text_in_bounds { length text.now / 2 ≤ length out.old }
    ensures { out.new ≡ decoded text.now ++ drop (length text.now / 2) out.old }
{
    let (pairs, _) = text.as_chunks::<2>();
    for (i, &[high, low]) in pairs.iter().enumerate() {
        out[i] = digit(high) * 16 + digit(low);
    }
}

// The key that the text stands for, or 115 where it stands for none.
pub(crate) fn key_into(text: &[u8], out: &mut [u8]) -> Result<usize, Refusal>
    ensures { Answers (found (key_in text.now)) out.old result out.new }
{
    if !valid_key(text) {
        return Err(Refusal::UnknownPskIdentity);
    }
    let n = text.len() / 2;
    // No `get_mut(..n)`: after it a proof knows the length of `out` and none of its bytes.
    if out.len() < n {
        return Err(Refusal::ShortOutput);
    }
    decode(text, out);
    Ok(n)
}
