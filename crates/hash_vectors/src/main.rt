// Reads messages from standard input and prints their SHA-256 digests: each absorbed whole and in uneven
// parts, or one part absorbed many times. tests/hash_vectors.py makes the input and prints the same
// lines from another implementation.
#![tactic(auto)]

use sha256::Sha256;
use std::io;
use std::io::{Read, Write};

// A line: the message's length, how it was absorbed, and the digest.
fn print_line(output: &mut impl Write, length: usize, how: &[u8], hash: Sha256) -> io::Result<()> {
    let mut digest = [0u8; 32];
    // Not refused: there is room, and no message is near the limit.
    let _ = hash.finish(&mut digest);
    lines::number(output, length)?;
    lines::text(output, how)?;
    lines::hex(output, &digest)?;
    lines::text(output, b"\n")?;
    Ok(())
}

// The message in parts of one byte, two bytes, three bytes, and so on.
fn in_parts(message: &[u8]) -> Sha256 {
    let mut hash = Sha256::new();
    let mut rest = message;
    for size in 1..=message.len() {
        let Some((part, behind)) = rest.split_at_checked(size) else {
            break;
        };
        hash = hash.update(part);
        rest = behind;
    }
    hash.update(rest)
}

// So many times the same part.
fn in_equal_parts(output: &mut impl Write, part: &[u8], times: usize) -> io::Result<()> {
    let mut hash = Sha256::new();
    for _ in 0..times {
        hash = hash.update(part);
    }
    let length = part.len().wrapping_mul(times);
    print_line(output, length, b" in equal parts ", hash)
}

fn print_both(output: &mut impl Write, message: &[u8]) -> io::Result<()> {
    let length = message.len();
    print_line(output, length, b" whole ", Sha256::new().update(message))?;
    print_line(output, length, b" in parts ", in_parts(message))
}

// A call of the input, and whether there was one: 1 and a message, or 2, a part and how often it comes.
fn call(input: &mut impl Read, output: &mut impl Write) -> io::Result<bool> {
    let kind = lines::byte(input)?;
    let mut buffer = [0u8; 1024];
    let n = lines::field(input, &mut buffer)?;
    if kind == 1 {
        print_both(output, lines::part(&buffer, 0, n))?;
    }
    if kind == 2 {
        let times = lines::number24(input)?;
        in_equal_parts(output, lines::part(&buffer, 0, n), times)?;
    }
    Ok(kind != 0)
}

// Nothing says that input ends, so the calls are counted, up to a number that no input has.
fn main(rt: HostRuntime) -> io::Result<()> {
    let mut input = rt.stdin();
    let mut output = rt.stdout();
    for _ in 0..1000000u32 {
        if !call(&mut input, &mut output)? {
            break;
        }
    }
    Ok(())
}
