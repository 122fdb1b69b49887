// Runs whole handshakes: reads calls from standard input, makes them one after the other on one
// connection, and prints of each what came back and the whole output afterwards, which was EE in
// every byte before. tests/handshakes.py makes the input, and prints the same lines from a server of
// its own.
//
// A call is one byte, and what belongs to it: 1 start (rule, then random, hint and stand-in key, each
// with its length in one byte); 2 the table from now on (length in three bytes); 3 a message (room of
// the output in one byte, length in three bytes); 4 a change of cipher; 5 an alert (level,
// description); 6 the key block under the last master secret (suite, server random, client random);
// 7 another list of line starts from now on (the count in three bytes, then in two bytes a place of the
// list's 257, and the number there in three). With a table that is well formed its own list comes, with
// another one the list stays.
#![tactic(auto)]

use keytable::Table;
use refusal::Refusal;
use server::{Answer, Connection, Reply, Rule};
use std::io;
use std::io::{Read, Write};

// What is kept from call to call; the table and the list of its line starts are beside it.
#[derive(Drop)]
struct Kept {
    connection: Connection,
    master: [u8; 48],
}

// How long the table is, and how many line starts the list has.
#[derive(Clone, Copy)]
struct Sizes {
    table: usize,
    count: usize,
}

fn print_bytes(output: &mut impl Write, bytes: &[u8]) -> io::Result<()> {
    lines::text(output, b" ")?;
    lines::hex(output, bytes)?;
    Ok(())
}

// How many bytes were written, the alert, or the R number.
fn print_said(output: &mut impl Write, said: Result<usize, Refusal>) -> io::Result<()> {
    match said {
        Ok(n) => {
            lines::text(output, b"wrote ")?;
            lines::number(output, n)?;
        }
        Err(r) => {
            if r.for_peer() {
                lines::text(output, b"alert ")?;
            }
            lines::refused(output, r)?;
        }
    }
    Ok(())
}

fn end_line(output: &mut impl Write) -> io::Result<()> {
    lines::text(output, b"\n")?;
    Ok(())
}

fn named(byte: u8) -> Option<Rule> {
    match byte {
        1 => Some(Rule::Tell),
        2 => Some(Rule::Hide),
        _ => None,
    }
}

// The end of a call's line, and what is kept from then on.
fn answered(output: &mut impl Write, kept: Kept, answer: Answer<Connection>) -> io::Result<Kept> {
    let said = answer.said;
    let connection = answer.next;
    let master = kept.master;
    print_said(output, said)?;
    end_line(output)?;
    Ok(Kept { connection, master })
}

fn start(input: &mut impl Read, output: &mut impl Write, kept: Kept) -> io::Result<Kept> {
    let rule = named(lines::byte(input)?);
    let mut random = [0u8; 255];
    let mut hint = [0u8; 255];
    let mut stand_in = [0u8; 255];
    let random_length = lines::byte(input)? as usize;
    lines::fill(input, &mut random, random_length)?;
    let hint_length = lines::byte(input)? as usize;
    lines::fill(input, &mut hint, hint_length)?;
    let key_length = lines::byte(input)? as usize;
    lines::fill(input, &mut stand_in, key_length)?;
    let answer = server::start(
        lines::part(&random, 0, random_length),
        lines::part(&hint, 0, hint_length),
        lines::part(&stand_in, 0, key_length),
        rule,
    );
    lines::text(output, b"start ")?;
    answered(output, kept, answer)
}

// The end of a message's line, with the master secret where one was handed over and how many blocks were hashed for it.
fn replied(output: &mut impl Write, kept: Kept, reply: Reply<Connection>) -> io::Result<Kept> {
    let connection = reply.next;
    let mut master = kept.master;
    if let Some(derived) = reply.handed {
        master = derived.master;
        lines::text(output, b" blocks ")?;
        lines::number(output, derived.blocks as usize)?;
        lines::text(output, b" master")?;
        print_bytes(output, &master)?;
    }
    end_line(output)?;
    Ok(Kept { connection, master })
}

// A message's line: what was said, and the whole output.
fn deliver(
    output: &mut impl Write,
    kept: Kept,
    table: Table,
    bytes: &[u8],
    out: &mut [u8],
) -> io::Result<Kept> {
    let connection = kept.connection;
    let reply = server::message(connection, table, bytes, out);
    lines::text(output, b"message ")?;
    print_said(output, reply.said)?;
    print_bytes(output, out)?;
    replied(output, kept, reply)
}

fn message(
    input: &mut impl Read,
    output: &mut impl Write,
    kept: Kept,
    table: Table,
) -> io::Result<Kept> {
    let mut bytes = [0u8; 16400];
    let mut lent = [0xeeu8; 255];
    let room = lines::byte(input)? as usize;
    let size = lines::number24(input)?;
    lines::fill(input, &mut bytes, size)?;
    deliver(
        output,
        kept,
        table,
        lines::part(&bytes, 0, size),
        &mut lent[255 - room..],
    )
}

fn change(output: &mut impl Write, kept: Kept) -> io::Result<Kept> {
    let connection = kept.connection;
    let answer = server::change_of_cipher(connection);
    lines::text(output, b"change ")?;
    answered(output, kept, answer)
}

fn alert(input: &mut impl Read, output: &mut impl Write, kept: Kept) -> io::Result<Kept> {
    let level = lines::byte(input)?;
    let description = lines::byte(input)?;
    let connection = kept.connection;
    let answer = server::alert(connection, level, description);
    lines::text(output, b"alert ")?;
    answered(output, kept, answer)
}

fn key_block(input: &mut impl Read, output: &mut impl Write, kept: Kept) -> io::Result<Kept> {
    let suite = lines::number16(input)? as u16;
    let mut server = [0u8; 32];
    let mut client = [0u8; 32];
    lines::fill(input, &mut server, 32)?;
    lines::fill(input, &mut client, 32)?;
    let mut block = [0u8; 96];
    let master = kept.master;
    let said = keys::key_block(&master, &server, &client, suite, &mut block);
    lines::text(output, b"keys ")?;
    print_said(output, said)?;
    print_bytes(output, &block)?;
    end_line(output)?;
    Ok(kept)
}

fn once(
    input: &mut impl Read,
    output: &mut impl Write,
    call: u8,
    kept: Kept,
    table: Table,
) -> io::Result<Kept> {
    match call {
        1 => start(input, output, kept),
        3 => message(input, output, kept, table),
        4 => change(output, kept),
        5 => alert(input, output, kept),
        6 => key_block(input, output, kept),
        _ => Ok(kept),
    }
}

// What is kept before the first call: a connection that is closed.
fn nothing() -> Kept {
    Kept {
        connection: server::start(b"", b"", b"", None).next,
        master: [0u8; 48],
    }
}

// Call 2: another table, and its list where it is well formed.
fn new_table(
    input: &mut impl Read,
    table: &mut [u8],
    starts: &mut [u32],
    sizes: Sizes,
) -> io::Result<Sizes> {
    let n = lines::number24(input)?;
    let size = lines::fill(input, table, n)?;
    let made = keytable::make_list(lines::part(table, 0, size), starts);
    Ok(Sizes {
        table: size,
        count: made.unwrap_or(sizes.count),
    })
}

// Call 7: another count, and another number at a place of the list.
fn new_list(input: &mut impl Read, starts: &mut [u32], sizes: Sizes) -> io::Result<Sizes> {
    let count = lines::number24(input)?;
    let at = lines::number16(input)?;
    let start = lines::number24(input)? as u32;
    if let Some(place) = starts.get_mut(at) {
        *place = start;
    }
    Ok(Sizes { count, ..sizes })
}

// The sizes of table and list from now on: calls 2 and 7 bring others.
fn next_table(
    input: &mut impl Read,
    call: u8,
    table: &mut [u8],
    starts: &mut [u32],
    sizes: Sizes,
) -> io::Result<Sizes> {
    match call {
        2 => new_table(input, table, starts, sizes),
        7 => new_list(input, starts, sizes),
        _ => Ok(sizes),
    }
}

// Nothing says that input ends, so the calls are counted, up to a number that no input has.
fn main(rt: HostRuntime) -> io::Result<()> {
    let mut input = rt.stdin();
    let mut output = rt.stdout();
    let mut table = [0u8; 70000];
    let mut starts = [0u32; 257];
    let mut sizes = Sizes { table: 0, count: 0 };
    let mut kept = nothing();
    for _ in 0..65536u32 {
        let call = lines::byte(&mut input)?;
        if call == 0 {
            break;
        }
        sizes = next_table(&mut input, call, &mut table, &mut starts, sizes)?;
        // The table is the front of its buffer.
        let lent = Table {
            bytes: lines::part(&table, 0, sizes.table),
            starts: &starts,
            count: sizes.count,
        };
        kept = once(&mut input, &mut output, call, kept, lent)?;
    }
    Ok(())
}
