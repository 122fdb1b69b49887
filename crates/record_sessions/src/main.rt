// Runs whole sessions on record connections: reads calls from standard input, makes them one after the other on one
// connection, and prints of each what came back and the whole output afterwards, which was EE in every byte before;
// of bytes over 255 the first eight of their SHA-256 are shown.
// tests/record_sessions.py makes the input, and prints the same lines from a server of its own.
//
// A call is one byte, and what belongs to it: 1 start (rule, then random, hint and stand-in key, each with its length in
// one byte); 2 the table from now on (length in three bytes); 3 a record (room of the output in one byte, length in three
// bytes), of which the line has the lent memory too; 4 data to send (room in three bytes, length in three
// bytes); 5 close_notify (room in one byte); 6 the alert that closed the connection (room in one byte); 7 another list of
// line starts from now on (the count in three bytes, then in two bytes a place of the list's 257, and the number there in
// three). With a table that is well formed its own list comes, with another one the list stays.
#![tactic(auto)]

ghost use Rattle.std.specs.Prelude.{◌≤◌};

use keytable::Table;
use record_server::{Answer, RecordConnection, Taken};
use refusal::Refusal;
use server::Rule;
use std::io;
use std::io::{Read, Write};

// How long the table is, and how many line starts the list beside it has.
#[derive(Clone, Copy)]
struct Sizes {
    table: usize,
    count: usize,
}

// Bytes; of long ones the first eight of their SHA-256.
fn print_bytes(output: &mut impl Write, bytes: &[u8]) -> io::Result<()> {
    lines::text(output, b" ")?;
    if bytes.len() < 256 {
        lines::hex(output, bytes)?;
        return Ok(());
    }
    let mut digest = [0u8; 32];
    // Not refused: there is room, and the bytes are far from the limit.
    let _ = sha256::hash(bytes, &mut digest);
    lines::hex(output, lines::part(&digest, 0, 8))?;
    Ok(())
}

// How many bytes were written, the alert, or the R number.
fn print_said(output: &mut impl Write, said: Result<usize, Refusal>) -> io::Result<()> {
    match said {
        Ok(n) => {
            lines::text(output, b"wrote ")?;
            lines::number(output, n)?;
        }
        Err(r) => {
            if r.for_peer() {
                lines::text(output, b"alert ")?;
            }
            lines::refused(output, r)?;
        }
    }
    Ok(())
}

fn end_line(output: &mut impl Write) -> io::Result<()> {
    lines::text(output, b"\n")?;
    Ok(())
}

fn named(byte: u8) -> Option<Rule> {
    match byte {
        1 => Some(Rule::Tell),
        2 => Some(Rule::Hide),
        _ => None,
    }
}

fn start(input: &mut impl Read, output: &mut impl Write) -> io::Result<RecordConnection> {
    let rule = named(lines::byte(input)?);
    let mut random = [0u8; 255];
    let mut hint = [0u8; 255];
    let mut stand_in = [0u8; 255];
    let random_length = lines::byte(input)? as usize;
    lines::fill(input, &mut random, random_length)?;
    let hint_length = lines::byte(input)? as usize;
    lines::fill(input, &mut hint, hint_length)?;
    let key_length = lines::byte(input)? as usize;
    lines::fill(input, &mut stand_in, key_length)?;
    let answer = record_server::start(
        lines::part(&random, 0, random_length),
        lines::part(&hint, 0, hint_length),
        lines::part(&stand_in, 0, key_length),
        rule,
    );
    lines::text(output, b"start ")?;
    print_said(output, answer.said)?;
    end_line(output)?;
    Ok(answer.next)
}

// The rest of a record's line: application data, and the master secret where one was handed over with how many blocks
// were hashed for it.
fn print_taken(output: &mut impl Write, taken: Taken, received: &[u8]) -> io::Result<()> {
    let holds = taken.holds;
    if holds.is_some() {
        lines::text(output, b" data")?;
        print_bytes(output, record_server::application_data(holds, received))?;
    }
    if let Some(derived) = taken.handed {
        lines::text(output, b" blocks ")?;
        lines::number(output, derived.blocks as usize)?;
        lines::text(output, b" master")?;
        print_bytes(output, &derived.master)?;
    }
    end_line(output)
}

// A record's line: what was said, the whole output, and the memory's digest.
fn take_one(
    output: &mut impl Write,
    c: RecordConnection,
    table: Table,
    received: &[u8],
    memory: &mut [u8],
    out: &mut [u8],
) -> io::Result<RecordConnection> {
    let taken = record_server::take(c, table, received, memory, out);
    lines::text(output, b"record ")?;
    print_said(output, taken.said)?;
    print_bytes(output, out)?;
    print_bytes(output, memory)?;
    print_taken(output, taken, received)?;
    Ok(taken.next)
}

fn take(
    input: &mut impl Read,
    output: &mut impl Write,
    c: RecordConnection,
    table: Table,
    memory: &mut [u8],
) -> io::Result<RecordConnection> {
    let mut bytes = [0u8; 16500];
    let mut lent = [0xeeu8; 255];
    let room = lines::byte(input)? as usize;
    let size = lines::number24(input)?;
    lines::fill(input, &mut bytes, size)?;
    take_one(
        output,
        c,
        table,
        lines::part(&bytes, 0, size),
        memory,
        &mut lent[255 - room..],
    )
}

// The end of a line that has what was said and the whole output.
fn answered(
    output: &mut impl Write,
    answer: Answer<RecordConnection>,
    out: &[u8],
) -> io::Result<RecordConnection> {
    print_said(output, answer.said)?;
    print_bytes(output, out)?;
    end_line(output)?;
    Ok(answer.next)
}

fn send_one(
    output: &mut impl Write,
    c: RecordConnection,
    content: &[u8],
    out: &mut [u8],
) -> io::Result<RecordConnection> {
    let answer = record_server::send(c, content, out);
    lines::text(output, b"send ")?;
    answered(output, answer, out)
}

// How much of n bytes there is to be lent.
fn room_of(n: usize) -> usize
    ensures { result ≤ 16500 }
{
    n.min(16500)
}

fn send(
    input: &mut impl Read,
    output: &mut impl Write,
    c: RecordConnection,
) -> io::Result<RecordConnection> {
    let mut bytes = [0u8; 16500];
    let mut lent = [0xeeu8; 16500];
    let room = room_of(lines::number24(input)?);
    let size = lines::number24(input)?;
    lines::fill(input, &mut bytes, size)?;
    send_one(
        output,
        c,
        lines::part(&bytes, 0, size),
        &mut lent[16500 - room..],
    )
}

fn close_one(
    output: &mut impl Write,
    c: RecordConnection,
    out: &mut [u8],
) -> io::Result<RecordConnection> {
    let answer = record_server::close(c, out);
    lines::text(output, b"close ")?;
    answered(output, answer, out)
}

fn alert_one(output: &mut impl Write, c: RecordConnection, out: &mut [u8]) -> io::Result<()> {
    let said = record_server::alert(c, out);
    lines::text(output, b"alert ")?;
    print_said(output, said)?;
    print_bytes(output, out)?;
    end_line(output)
}

fn close(
    input: &mut impl Read,
    output: &mut impl Write,
    c: RecordConnection,
) -> io::Result<RecordConnection> {
    let mut lent = [0xeeu8; 255];
    let room = lines::byte(input)? as usize;
    close_one(output, c, &mut lent[255 - room..])
}

fn alert(input: &mut impl Read, output: &mut impl Write, c: RecordConnection) -> io::Result<()> {
    let mut lent = [0xeeu8; 255];
    let room = lines::byte(input)? as usize;
    alert_one(output, c, &mut lent[255 - room..])
}

fn once(
    input: &mut impl Read,
    output: &mut impl Write,
    call: u8,
    c: RecordConnection,
    table: Table,
    memory: &mut [u8],
) -> io::Result<RecordConnection> {
    match call {
        1 => start(input, output),
        3 => take(input, output, c, table, memory),
        4 => send(input, output, c),
        5 => close(input, output, c),
        6 => {
            alert(input, output, c)?;
            Ok(c)
        }
        _ => Ok(c),
    }
}

// Before the first call: a connection that is closed.
fn nothing() -> RecordConnection {
    record_server::start(b"", b"", b"", None).next
}

// Call 2: another table, and its list where it is well formed.
fn new_table(
    input: &mut impl Read,
    table: &mut [u8],
    starts: &mut [u32],
    sizes: Sizes,
) -> io::Result<Sizes> {
    let n = lines::number24(input)?;
    let size = lines::fill(input, table, n)?;
    let made = keytable::make_list(lines::part(table, 0, size), starts);
    Ok(Sizes {
        table: size,
        count: made.unwrap_or(sizes.count),
    })
}

// Call 7: another count, and another number at a place of the list.
fn new_list(input: &mut impl Read, starts: &mut [u32], sizes: Sizes) -> io::Result<Sizes> {
    let count = lines::number24(input)?;
    let at = lines::number16(input)?;
    let start = lines::number24(input)? as u32;
    if let Some(place) = starts.get_mut(at) {
        *place = start;
    }
    Ok(Sizes { count, ..sizes })
}

// The sizes of table and list from now on: calls 2 and 7 bring others.
fn next_table(
    input: &mut impl Read,
    call: u8,
    table: &mut [u8],
    starts: &mut [u32],
    sizes: Sizes,
) -> io::Result<Sizes> {
    match call {
        2 => new_table(input, table, starts, sizes),
        7 => new_list(input, starts, sizes),
        _ => Ok(sizes),
    }
}

// Nothing says that input ends, so the calls are counted, up to a number that no input has.
fn main(rt: HostRuntime) -> io::Result<()> {
    let mut input = rt.stdin();
    let mut output = rt.stdout();
    let mut table = [0u8; 70000];
    let mut starts = [0u32; 257];
    let mut memory = [0xeeu8; 16384];
    let mut sizes = Sizes { table: 0, count: 0 };
    let mut c = nothing();
    for _ in 0..65536u32 {
        let call = lines::byte(&mut input)?;
        if call == 0 {
            break;
        }
        sizes = next_table(&mut input, call, &mut table, &mut starts, sizes)?;
        // The table is the front of its buffer.
        let lent = Table {
            bytes: lines::part(&table, 0, sizes.table),
            starts: &starts,
            count: sizes.count,
        };
        c = once(&mut input, &mut output, call, c, lent, &mut memory)?;
    }
    Ok(())
}
