// Memory of a fixed layout: made of parts, one behind the other; a part read at its place, and a truth
// value in its byte.
ghost use Rattle.std.specs.Prelude.{◌≡◌, ◌+◌, ◌≤◌, ◌<◌, length, take, replicate, flat_map};
ghost use Rattle.lists.specs.Lists.{field, part, flag_of};

use std::cmp::min;

// The parts, one behind the other: of those that fill an array all bytes, else the first N of them or zeros behind them.
pub fn joined<const N: usize>(parts: &[&[u8]]) -> [u8; N]
    ensures fills { length (flat_map (λ part. part.now) parts.now) ≡ N → result ≡ flat_map (λ part. part.now) parts.now }
    ensures value { result ≡ field N (take N (flat_map (λ part. part.now) parts.now)) }
{
    let mut all = [0u8; N];
    let mut at: usize = 0;
    for part in parts {
        let n = min(part.len(), N - at);
        let end = at + n;
        let room = &mut all[..];
        room[at..end].copy_from_slice(&part[..n]);
        at = end;
    }
    all
}

// The N bytes from a place on; zeros where there are not so many.
pub fn array_at<const N: usize>(bytes: &[u8], at: usize) -> [u8; N]
    ensures inside { at + N ≤ length bytes.now → result ≡ part at N bytes.now }
    ensures outside { length bytes.now < at + N → result ≡ replicate N 0 }
{
    let mut kept = [0u8; N];
    if at <= bytes.len() && N <= bytes.len() - at {
        kept.copy_from_slice(&bytes[at..at + N]);
    }
    kept
}

// The truth value of a byte, if it is that of one.
pub fn flag(byte: u8) -> Option<bool>
    ensures { result ≡ flag_of byte }
{
    match byte {
        0 => Some(false),
        1 => Some(true),
        _ => None,
    }
}
