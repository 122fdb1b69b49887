// Whether identities and lines are those of a table.
ghost use Rattle.std.specs.Prelude.{◌≡◌, ◌<◌, length};
ghost use Rattle.keytable.specs.Table.{valid_identity, valid_secret, ended};
ghost use Rattle.keytable.specs.Inner.{sized_key, sized_identity, line_parts};

use crate::classes::{all, class_end, plain};
use crate::hex::hex_digit;

// Where a line's colon and its end are.
#[derive(Clone, Copy)]
pub(crate) struct Parts {
    pub(crate) colon: usize,
    pub(crate) end: usize,
}

// Whether s, of bytes that an identity may have, is 1 to 128 of them and UTF-8.
fn sized_identity(s: &[u8]) -> bool
    ensures { result ≡ sized_identity s.now }
{
    (1..=128).contains(&s.len()) && utf8::valid_utf8(s)
}

// Whether s is 1 to 128 bytes of UTF-8 that an identity may have.
pub fn valid_identity(s: &[u8]) -> bool
    ensures { result ≡ valid_identity s.now }
{
    all(plain, s) && sized_identity(s)
}

// Whether a key of so many bytes may stand in a table.
pub fn valid_secret(key: &[u8]) -> bool
    ensures { result ≡ valid_secret key.now }
{
    (1..=64).contains(&key.len())
}

// Whether a key may have so many digits.
pub(crate) fn sized_key(digits: usize) -> bool
    ensures { result ≡ sized_key digits }
{
    (2..=128).contains(&digits) && digits % 2 == 0
}

// The line that starts at `at`, if it is one of a table. No end of it is looked for before it is read: the identity's
// bytes end at the colon, and the digits at the 0A.
pub(crate) fn read_line(table: &[u8], at: usize) -> Option<Parts>
    requires { at < length table.now }
    ensures { result ≡ line_parts table.now at }
{
    let colon = class_end(plain, table, at);
    if table.get(colon) != Some(&58) {
        return None;
    }
    let end = class_end(hex_digit, table, colon + 1);
    if table.get(end) != Some(&10) {
        return None;
    }
    if sized_key(end - (colon + 1)) && sized_identity(&table[at..colon]) {
        Some(Parts { colon, end })
    } else {
        None
    }
}

// Whether the last byte is 0A, if there is one.
pub(crate) fn ended(table: &[u8]) -> bool
    ensures { result ≡ ended table.now }
{
    match table.last() {
        Some(&b) => b == 10,
        None => true,
    }
}
