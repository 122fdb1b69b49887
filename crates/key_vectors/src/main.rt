// Reads calls from standard input and prints what HMAC, the PRF, the premaster and master secrets, the key
// block and the Finished values come to, refusals among them, and with a master secret how many blocks were
// hashed for it. tests/key_vectors.py makes the input and prints the same lines from other implementations.
//
// A call is a byte that names a function, a number (the PRF's length, or a suite), the output's room, and
// three fields.
#![tactic(auto)]

use keys::{Label, Side};
use refusal::Refusal;
use sha256::Reported;
use std::io;
use std::io::{Read, Write};

// The bytes that were written, with the number of blocks where there is one, or the number of the refusal.
fn print_told(
    output: &mut impl Write,
    told: Result<Reported, Refusal>,
    out: &[u8],
) -> io::Result<()> {
    match told {
        Ok(told) => {
            lines::hex(output, lines::part(out, 0, told.len))?;
            if 0 < told.blocks {
                lines::text(output, b" blocks ")?;
                lines::number(output, told.blocks as usize)?;
            }
        }
        Err(r) => {
            lines::text(output, b"refused ")?;
            lines::number(output, usize::from(u8::from(r)))?;
        }
    }
    Ok(())
}

// The start of a line; answers how long it is.
fn print_name(output: &mut impl Write, kind: u8) -> io::Result<usize> {
    match kind {
        1 => lines::text(output, b"hmac "),
        6 => lines::text(output, b"premaster "),
        7 => lines::text(output, b"master "),
        8 => lines::text(output, b"key block "),
        9 | 10 => lines::text(output, b"finished "),
        11 => lines::text(output, b"master under a key "),
        _ => lines::text(output, b"prf "),
    }
}

fn label(kind: u8) -> Label {
    match kind {
        2 => Label::MasterSecret,
        3 => Label::KeyExpansion,
        4 => Label::ClientFinished,
        _ => Label::ServerFinished,
    }
}

// What a call that counts no blocks comes to.
fn uncounted(
    kind: u8,
    n: u16,
    a: &[u8],
    b: &[u8],
    c: &[u8],
    out: &mut [u8],
) -> Result<usize, Refusal> {
    match kind {
        1 => keys::hmac(a, b, out),
        6 => keys::premaster(a, out),
        8 => keys::key_block(a, b, c, n, out),
        9 => keys::finished(Side::Client, a, b, out),
        10 => keys::finished(Side::Server, a, b, out),
        _ => keys::prf(a, label(kind), b, n as usize, out),
    }
}

// What a call comes to, with the number of blocks of a master secret and 0 for anything else.
fn answer(
    kind: u8,
    n: u16,
    a: &[u8],
    b: &[u8],
    c: &[u8],
    out: &mut [u8],
) -> Result<Reported, Refusal> {
    match kind {
        7 => keys::master(a, b, c, out),
        11 => keys::master_under(a, b, c, out),
        _ => {
            let len = uncounted(kind, n, a, b, c, out)?;
            Ok(Reported { len, blocks: 0 })
        }
    }
}

fn print_line(
    output: &mut impl Write,
    kind: u8,
    n: u16,
    a: &[u8],
    b: &[u8],
    c: &[u8],
    out: &mut [u8],
) -> io::Result<()> {
    print_name(output, kind)?;
    let told = answer(kind, n, a, b, c, out);
    print_told(output, told, out)?;
    lines::text(output, b"\n")?;
    Ok(())
}

// A call of the input, and whether there was one.
fn call(input: &mut impl Read, output: &mut impl Write) -> io::Result<bool> {
    let kind = lines::byte(input)?;
    if kind == 0 {
        return Ok(false);
    }
    let n = lines::number16(input)? as u16;
    let room = lines::number16(input)?;
    if 260 < room {
        return Ok(false);
    }
    let mut a = lines::buffer();
    let mut b = lines::buffer();
    let mut c = [0u8; 64];
    let a_size = lines::field(input, &mut a)?;
    let b_size = lines::field(input, &mut b)?;
    let c_size = lines::field(input, &mut c)?;
    let mut out = [0u8; 260];
    print_line(
        output,
        kind,
        n,
        lines::part(&a, 0, a_size),
        lines::part(&b, 0, b_size),
        lines::part(&c, 0, c_size),
        &mut out[260 - room..],
    )?;
    Ok(true)
}

// Nothing says that input ends, so the calls are counted, up to a number that no input has.
fn main(rt: HostRuntime) -> io::Result<()> {
    let mut input = rt.stdin();
    let mut output = rt.stdout();
    for _ in 0..1000000u32 {
        if !call(&mut input, &mut output)? {
            break;
        }
    }
    Ok(())
}
