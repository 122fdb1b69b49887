// What the programs that try vectors share: reading their input from standard input and printing their
// lines to standard output, or any reader and writer.
//
// No contract can say which bytes are read or written, so each function promises what can be said: how
// much there was to print, the bounds of what was read, and that lent memory keeps its length and
// what stands behind the bytes that were read. An error is the reader's or the writer's. What is printed is compared
// with each program's file stdout.
#![tactic(auto)]

mod print;
mod read;

ghost use Rattle.std.specs.Prelude.{◌≡◌, length};
ghost use Rattle.lists.specs.Lists as Lists;

pub use print::{hex, number, refused, text};
pub use read::{byte, field, fill, number16, number24};

// Room for the longest field, a key table past its limit. The promise gives only the length, which lending
// it as a slice needs.
pub fn buffer() -> [u8; 65600]
    ensures { 65600 ≡ length result }
{
    [0; 65600]
}

// The part of so many bytes that starts at a place, or as much of it as is there.
pub fn part(bytes: &[u8], start: usize, len: usize) -> &[u8]
    ensures { result.now ≡ Lists.part start len bytes.now }
{
    if bytes.len() <= start {
        return &bytes[0..0];
    }
    if bytes.len() - start < len {
        return &bytes[start..];
    }
    &bytes[start..start + len]
}
