// Reads calls from standard input. Of a message it prints what every layout reader says of it: 50, or where
// the fields stand, and whether the writer makes the same message of them again. Of fields it prints what
// a writer answers, among them values that no layout has and outputs that are too short; of an extension
// the bytes at its front too. tests/message_vectors.py makes the input, and prints the same lines from a
// parser and a writer of its own.
//
// A call is 1 and a message, or a byte that names a writer, the output's room, and what it takes.
#![tactic(auto)]

use extensions::Step;
use layout::Part;
use messages::ticket::Ticket;
use refusal::Refusal;
use std::io;
use std::io::{Read, Write};

fn print_number(output: &mut impl Write, n: usize) -> io::Result<()> {
    lines::text(output, b" ")?;
    lines::number(output, n)?;
    Ok(())
}

fn print_refusal(output: &mut impl Write, r: Refusal) -> io::Result<()> {
    print_number(output, usize::from(u8::from(r)))
}

// Where a part starts, and how long it is.
fn print_place(output: &mut impl Write, part: Part) -> io::Result<()> {
    print_number(output, part.start)?;
    print_number(output, part.len)
}

// Whether what was written is the message.
fn print_again(
    output: &mut impl Write,
    said: Result<usize, Refusal>,
    out: &[u8],
    message: &[u8],
) -> io::Result<()> {
    match said {
        Ok(n) => {
            if lists::same(lines::part(out, 0, n), message) {
                lines::text(output, b" same")?;
            } else {
                lines::text(output, b" other")?;
            }
        }
        Err(r) => print_refusal(output, r)?,
    }
    Ok(())
}

// The extensions of a block, each as its type and length.
fn print_extensions(output: &mut impl Write, block: &[u8]) -> io::Result<()> {
    let mut at = 0;
    while let Step::Extension { kind, start, len } = extensions::next(block, at) {
        print_number(output, kind)?;
        print_number(output, len)?;
        at = start + len;
    }
    Ok(())
}

fn show_block(output: &mut impl Write, block: Option<&[u8]>) -> io::Result<()> {
    let Some(block) = block else {
        lines::text(output, b" absent")?;
        return Ok(());
    };
    print_extensions(output, block)
}

fn show_client(output: &mut impl Write, message: &[u8], out: &mut [u8]) -> io::Result<()> {
    lines::text(output, b" ClientHello")?;
    let Some(client) = hellos::client_hello::read(message) else {
        return print_refusal(output, Refusal::DecodeError);
    };
    print_number(output, client.version)?;
    print_number(output, client.session_len)?;
    print_place(output, client.suites)?;
    print_place(output, client.methods)?;
    let block = client.block.map(|part| part.of(message));
    show_block(output, block)?;
    let said = hellos::client_hello::write(
        client.version,
        lines::part(message, 6, 32),
        lines::part(message, 39, client.session_len),
        client.suites.of(message),
        client.methods.of(message),
        block,
        out,
    );
    print_again(output, said, out, message)
}

fn show_server(output: &mut impl Write, message: &[u8], out: &mut [u8]) -> io::Result<()> {
    lines::text(output, b" ServerHello")?;
    let Some(server) = hellos::server_hello::read(message) else {
        return print_refusal(output, Refusal::DecodeError);
    };
    print_number(output, server.version)?;
    print_number(output, server.session_len)?;
    print_number(output, server.suite)?;
    print_number(output, usize::from(server.compression))?;
    let block = server.block.map(|part| part.of(message));
    show_block(output, block)?;
    let said = hellos::server_hello::write(
        server.version,
        lines::part(message, 6, 32),
        lines::part(message, 39, server.session_len),
        server.suite,
        server.compression,
        block,
        out,
    );
    print_again(output, said, out, message)
}

fn show_ticket(output: &mut impl Write, message: &[u8], out: &mut [u8]) -> io::Result<()> {
    lines::text(output, b" NewSessionTicket")?;
    let Some(
        Ticket {
            lifetime_hint,
            ticket,
        },
    ) = messages::ticket::read(message)
    else {
        return print_refusal(output, Refusal::DecodeError);
    };
    print_number(output, lifetime_hint as usize)?;
    print_place(output, ticket)?;
    let said = messages::ticket::write(lifetime_hint, ticket.of(message), out);
    print_again(output, said, out, message)
}

// Writes a message of one field.
fn write(kind: u8, field: &[u8], out: &mut [u8]) -> Result<usize, Refusal> {
    match kind {
        4 => messages::ticket::write(1, field, out),
        12 => messages::key_exchange::write_hint(field, out),
        14 => messages::fixed::write_done(out),
        16 => messages::key_exchange::write_identity(field, out),
        _ => messages::fixed::write_finished(field, out),
    }
}

// What a reader of a message of one field says, and that field written again.
fn show_part(
    output: &mut impl Write,
    kind: u8,
    read: Option<Part>,
    message: &[u8],
    out: &mut [u8],
) -> io::Result<()> {
    let Some(part) = read else {
        return print_refusal(output, Refusal::DecodeError);
    };
    print_place(output, part)?;
    let said = write(kind, part.of(message), out);
    print_again(output, said, out, message)
}

fn show_parts(output: &mut impl Write, message: &[u8], out: &mut [u8]) -> io::Result<()> {
    lines::text(output, b" ServerKeyExchange")?;
    let hint = messages::key_exchange::read_hint(message);
    show_part(output, 12, hint, message, out)?;
    lines::text(output, b" ClientKeyExchange")?;
    print_number(output, messages::key_exchange::identity(message).len())?;
    let identity = messages::key_exchange::read_identity(message);
    show_part(output, 16, identity, message, out)?;
    lines::text(output, b" ServerHelloDone")?;
    show_part(
        output,
        14,
        messages::fixed::read_done(message),
        message,
        out,
    )?;
    lines::text(output, b" Finished")?;
    show_part(
        output,
        20,
        messages::fixed::read_finished(message),
        message,
        out,
    )
}

fn show(output: &mut impl Write, message: &[u8], out: &mut [u8]) -> io::Result<()> {
    show_client(output, message, out)?;
    show_server(output, message, out)?;
    show_ticket(output, message, out)?;
    show_parts(output, message, out)?;
    lines::text(output, b"\n")?;
    Ok(())
}

// How far the bytes, all FF before, have changed.
fn changed(out: &[u8]) -> usize {
    out.iter().rposition(|b| *b != 255).map_or(0, |i| i + 1)
}

// How many bytes were written, or the number of the refusal, and how far the output has changed.
fn print_said(output: &mut impl Write, said: Result<usize, Refusal>, out: &[u8]) -> io::Result<()> {
    match said {
        Ok(n) => print_number(output, n)?,
        Err(r) => print_refusal(output, r)?,
    }
    print_number(output, changed(out))
}

// The first bytes of an extension that was written. How many there are says nothing of its type, nor of
// the lengths that it states.
fn print_front(
    output: &mut impl Write,
    said: Result<usize, Refusal>,
    out: &[u8],
) -> io::Result<()> {
    if let Ok(n) = said {
        lines::text(output, b" ")?;
        lines::hex(output, lines::part(lines::part(out, 0, n), 0, 8))?;
    }
    Ok(())
}

// A ClientHello's writer, for fields of 07s whose sizes come from the input.
fn try_client(
    input: &mut impl Read,
    block: &[u8],
    out: &mut [u8],
) -> io::Result<Result<usize, Refusal>> {
    let bytes = [7u8; 16400];
    let version = lines::number24(input)?;
    let present = lines::byte(input)? == 1;
    let random = lines::number16(input)?;
    let session_id = lines::number16(input)?;
    let suites = lines::number16(input)?;
    let methods = lines::number16(input)?;
    Ok(hellos::client_hello::write(
        version,
        lines::part(&bytes, 0, random),
        lines::part(&bytes, 0, session_id),
        lines::part(&bytes, 0, suites),
        lines::part(&bytes, 0, methods),
        present.then_some(block),
        out,
    ))
}

// A ServerHello's writer, for a random of 07s and no session id.
fn try_server(
    input: &mut impl Read,
    block: &[u8],
    out: &mut [u8],
) -> io::Result<Result<usize, Refusal>> {
    let suite = lines::number24(input)?;
    let present = lines::byte(input)? == 1;
    Ok(hellos::server_hello::write(
        771,
        &[7u8; 32],
        &[],
        suite,
        0,
        present.then_some(block),
        out,
    ))
}

// What a writer answers, for one field, or a block and what else a hello takes: 2 and 3 stand for the
// hellos, 5 for an extension, whose type follows, 35 for a SessionTicket extension, any other number for its
// message's type.
fn answer(input: &mut impl Read, kind: u8, out: &mut [u8]) -> io::Result<Result<usize, Refusal>> {
    let mut buffer = lines::buffer();
    let size = lines::field(input, &mut buffer)?;
    let field = lines::part(&buffer, 0, size);
    match kind {
        2 => try_server(input, field, out),
        3 => try_client(input, field, out),
        5 => {
            let number = lines::number24(input)?;
            Ok(extensions::write(number, field, out))
        }
        35 => Ok(extensions::write_ticket(field, out)),
        _ => Ok(write(kind, field, out)),
    }
}

fn try_writer(input: &mut impl Read, output: &mut impl Write, kind: u8) -> io::Result<()> {
    let room = lines::number16(input)?;
    if 16400 < room {
        return Ok(());
    }
    let mut lent = [255u8; 16400];
    let out = &mut lent[16400 - room..];
    let said = answer(input, kind, out)?;
    print_said(output, said, out)?;
    if kind == 5 || kind == 35 {
        print_front(output, said, out)?;
    }
    lines::text(output, b"\n")?;
    Ok(())
}

// A call of the input, and whether there was one.
fn call(input: &mut impl Read, output: &mut impl Write) -> io::Result<bool> {
    let kind = lines::byte(input)?;
    if kind == 0 {
        return Ok(false);
    }
    if kind != 1 {
        try_writer(input, output, kind)?;
        return Ok(true);
    }
    let mut buffer = [0u8; 16400];
    let mut out = [0u8; 16400];
    let n = lines::field(input, &mut buffer)?;
    show(output, lines::part(&buffer, 0, n), &mut out)?;
    Ok(true)
}

// Nothing says that input ends, so the calls are counted, up to a number that no input has.
fn main(rt: HostRuntime) -> io::Result<()> {
    let mut input = rt.stdin();
    let mut output = rt.stdout();
    for _ in 0..1000000u32 {
        if !call(&mut input, &mut output)? {
            break;
        }
    }
    Ok(())
}
