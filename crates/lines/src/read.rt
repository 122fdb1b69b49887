// Reading from a reader: numbers, bytes to the front of lent memory, and fields. At the input's end
// every byte is 0. A read that fails leaves of lent memory its length and what stands behind the bytes that were to
// be read.
ghost use Rattle.std.specs.Prelude.{◌≡◌, ◌<◌, IfOk, OnErr, length, min};
ghost use Rattle.lines.specs.Front.{Front};

use std::io;
use std::io::{ErrorKind, Read};

// Reads until the memory is full or the input ends; what was not read stays as it was.
fn read_full(input: &mut impl Read, out: &mut [u8]) -> io::Result<()> {
    match input.read_exact(out) {
        Ok(()) => Ok(()),
        Err(e) => {
            if e.kind() == ErrorKind::UnexpectedEof {
                Ok(())
            } else {
                Err(e)
            }
        }
    }
}

// The byte itself: the range of a parameter is known, that of an element which a call has written is not.
fn within(b: u8) -> u8
    ensures { result < 256 }
{
    b
}

// The next byte.
pub fn byte(input: &mut impl Read) -> io::Result<u8>
    ensures { IfOk result (λ b. b < 256) }
{
    let mut one = [0u8; 1];
    read_full(input, &mut one)?;
    Ok(within(one[0]))
}

// The number in the next two bytes.
pub fn number16(input: &mut impl Read) -> io::Result<usize>
    ensures { IfOk result (λ n. n < 65536) }
{
    let high = byte(input)?;
    let low = byte(input)?;
    Ok(endian::number16(high, low))
}

// The number in the next three bytes.
pub fn number24(input: &mut impl Read) -> io::Result<usize>
    ensures { IfOk result (λ n. n < 16777216) }
{
    let high = byte(input)?;
    let middle = byte(input)?;
    let low = byte(input)?;
    Ok(endian::number24(high, middle, low))
}

// Reads the next n bytes, or as many as there is room for, to the front of the lent memory. Answers how
// many that are; what stands behind them stays, after an error too.
pub fn fill(input: &mut impl Read, out: &mut [u8], n: usize) -> io::Result<usize>
    ensures ok { IfOk result (λ k. Front k out.old out.new) }
    ensures err { OnErr result (Front (min n (length out.old)) out.old out.new) }
{
    let count = n.min(out.len());
    read_full(input, &mut out[..count])?;
    Ok(count)
}

// Fills memory: each byte is step more than the one before it, modulo 256.
fn repeat(out: &mut [u8], first: u8, step: u8)
    ensures { length out.new ≡ length out.old }
{
    let mut next = first;
    for b in out {
        *b = next;
        next = next.wrapping_add(step);
    }
}

// Bytes by their first, the step from each to the next, and their number, to the front of the lent memory.
fn series(input: &mut impl Read, out: &mut [u8]) -> io::Result<usize>
    ensures ok { IfOk result (λ k. Front k out.old out.new) }
    ensures err { OnErr result (length out.new ≡ length out.old) }
{
    let first = byte(input)?;
    let step = byte(input)?;
    let n = number24(input)?;
    let count = n.min(out.len());
    repeat(&mut out[..count], first, step);
    Ok(count)
}

// One piece of a field: 1 and its bytes with their number in front, or a series.
fn piece(input: &mut impl Read, kind: u8, out: &mut [u8]) -> io::Result<usize>
    ensures ok { IfOk result (λ k. Front k out.old out.new) }
    ensures err { OnErr result (length out.new ≡ length out.old) }
{
    if kind == 1 {
        let n = number24(input)?;
        return fill(input, out, n);
    }
    series(input, out)
}

// Reads a field, pieces up to a 0, to the front of the lent memory. Answers how many bytes it has, as far
// as there is room. After an error the memory keeps its length.
pub fn field(input: &mut impl Read, out: &mut [u8]) -> io::Result<usize>
    ensures ok { IfOk result (λ k. Front k out.old out.new) }
    ensures err { OnErr result (length out.new ≡ length out.old) }
{
    let mut at: usize = 0;
    // Nothing says that input ends, so the pieces are counted, up to a number that no field has.
    for _ in 0..65536u32 {
        let kind = byte(input)?;
        if kind == 0 {
            break;
        }
        let n = piece(input, kind, &mut out[at..])?;
        at += n;
    }
    Ok(at)
}
