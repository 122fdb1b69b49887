// What several crates ask of byte strings. specs/Lists.antt has the definitions, proofs/ the laws that the
// proofs of the other crates cite.
#![tactic(auto)]

mod places;

ghost use Rattle.std.specs.Prelude.{◌≡◌, ◌≤◌, ◌++◌, length, take, drop};
ghost use Rattle.lists.specs.Lists.{field, same};

pub use places::{array_at, flag, joined};
use std::cmp::min;

// Whether two byte strings are equal. Of two of one length all bytes are read, whatever they are, so that the
// time does not tell where a secret value differs from a guess.
pub fn same(a: &[u8], b: &[u8]) -> bool
    ensures { result ≡ same a.now b.now }
{
    if a.len() != b.len() {
        return false;
    }
    let mut different: usize = 0;
    for (x, y) in a.iter().zip(b) {
        if x != y {
            different += 1;
        }
    }
    different == 0
}

// Copies a byte string to the front of a part of memory, and says how many bytes that were.
pub fn copy(src: &[u8], dst: &mut [u8]) -> usize
    requires { length src.now ≤ length dst.old }
    ensures { (result ≡ length src.now) × (dst.new ≡ take (length src.now) src.now ++ drop (length src.now) dst.old) }
{
    let n = src.len();
    dst[..n].copy_from_slice(src);
    n
}

// A byte string at the front of a field of N bytes, with zeros behind it; of a longer one, the first N bytes.
pub fn field<const N: usize>(bytes: &[u8]) -> [u8; N]
    ensures fits { length bytes.now ≤ N → result ≡ field N bytes.now }
    ensures longer { N ≤ length bytes.now → result ≡ take N bytes.now }
{
    let n = min(bytes.len(), N);
    let mut field = [0u8; N];
    field[..n].copy_from_slice(&bytes[..n]);
    field
}

// The n bytes at the front of a field; of a shorter one, all of it.
pub fn front(field: &[u8], n: usize) -> &[u8]
    ensures { result.now ≡ take n field.now }
{
    field.get(..n).unwrap_or(field)
}
