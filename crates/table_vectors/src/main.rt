// Reads texts, tables, lists of line starts, lookups and edits from standard input and prints what keytable and
// table_edits make of them: whether a text is UTF-8, whether a table is well formed, the list of its lines, whether a
// list is a table's, an identity's key, and an edited table with its list. tests/table_vectors.py makes the input and
// prints the same lines from another implementation.
//
// A call is a byte that names it, the room for a key, which a lookup alone uses, two fields, and a list: in two bytes how
// many numbers its memory has, the numbers in four bytes each, and in three bytes the count that is told. An edit has
// the whole memory as its second field, the table and what stands behind it, and two things more: the key as a
// third field, and in three bytes the length that is told to be the table's.
#![tactic(auto)]

ghost use Rattle.std.specs.Prelude.{◌≤◌, IfOk};

use keytable::Table;
use refusal::Refusal;
use std::io;
use std::io::{Read, Write};

// A line: the bytes, and whether they are UTF-8.
fn print_text(output: &mut impl Write, text: &[u8]) -> io::Result<()> {
    lines::hex(output, text)?;
    if utf8::valid_utf8(text) {
        lines::text(output, b" UTF-8\n")?;
    } else {
        lines::text(output, b" bad\n")?;
    }
    Ok(())
}

// A line: a name, and whether the table is well formed.
fn print_table(output: &mut impl Write, name: &[u8], table: &[u8]) -> io::Result<()> {
    lines::text(output, name)?;
    if keytable::well_formed(table) {
        lines::text(output, b": well formed\n")?;
    } else {
        lines::text(output, b": R2\n")?;
    }
    Ok(())
}

// How many numbers a list's memory has, of those that there is room for.
fn list_room(input: &mut impl Read) -> io::Result<usize>
    ensures { IfOk result (λ n. n ≤ 300) }
{
    let n = lines::number16(input)?;
    Ok(n.min(300))
}

// The number in the next four bytes.
fn number32(input: &mut impl Read) -> io::Result<u32> {
    let high = lines::number16(input)? as u32;
    let low = lines::number16(input)? as u32;
    Ok(high * 65536 + low)
}

// Reads the numbers of a list's memory.
fn read_list(input: &mut impl Read, starts: &mut [u32]) -> io::Result<()> {
    for start in starts {
        *start = number32(input)?;
    }
    Ok(())
}

fn print_start(output: &mut impl Write, start: u32) -> io::Result<()> {
    lines::text(output, b" ")?;
    lines::number(output, start as usize)?;
    Ok(())
}

// All numbers of a list's memory, those behind the count too.
fn print_starts(output: &mut impl Write, starts: &[u32]) -> io::Result<()> {
    for start in starts {
        print_start(output, *start)?;
    }
    Ok(())
}

// The end of a line that has a list's memory.
fn print_list(output: &mut impl Write, starts: &[u32]) -> io::Result<()> {
    lines::text(output, b":")?;
    print_starts(output, starts)?;
    lines::text(output, b"\n")?;
    Ok(())
}

// A number, or the refusal.
fn print_number(output: &mut impl Write, said: Result<usize, Refusal>) -> io::Result<()> {
    match said {
        Ok(n) => {
            lines::number(output, n)?;
        }
        Err(r) => {
            lines::refused(output, r)?;
        }
    }
    Ok(())
}

// A line: a name, how many lines the table has or the refusal, and the list's memory afterwards.
fn print_made(
    output: &mut impl Write,
    name: &[u8],
    table: &[u8],
    starts: &mut [u32],
) -> io::Result<()> {
    lines::text(output, name)?;
    lines::text(output, b": list ")?;
    let said = keytable::make_list(table, starts);
    print_number(output, said)?;
    print_list(output, starts)
}

// A line: a name, and whether the list is the table's.
fn print_judged(output: &mut impl Write, name: &[u8], table: Table) -> io::Result<()> {
    lines::text(output, name)?;
    match table.judge() {
        Ok(()) => {
            lines::text(output, b": its list")?;
        }
        Err(r) => {
            lines::text(output, b": ")?;
            lines::refused(output, r)?;
        }
    }
    lines::text(output, b"\n")?;
    Ok(())
}

// A line: the identity, and its key by that list or the refusal, with that room for the key.
fn print_key(
    output: &mut impl Write,
    identity: &[u8],
    table: Table,
    room: &mut [u8],
) -> io::Result<()> {
    lines::hex(output, identity)?;
    lines::text(output, b" ")?;
    match table.lookup(identity, room) {
        Ok(n) => {
            lines::hex(output, lines::part(room, 0, n))?;
        }
        Err(r) => {
            lines::refused(output, r)?;
        }
    }
    lines::text(output, b"\n")?;
    Ok(())
}

// The start of a line; answers how long it is.
fn print_name(output: &mut impl Write, kind: u8) -> io::Result<usize> {
    match kind {
        4 => lines::text(output, b"add "),
        5 => lines::text(output, b"replace "),
        _ => lines::text(output, b"retire "),
    }
}

fn edit(
    kind: u8,
    memory: &mut [u8],
    length: usize,
    starts: &mut [u32],
    count: &mut usize,
    identity: &[u8],
    key: &[u8],
) -> Result<usize, Refusal> {
    match kind {
        4 => table_edits::add(memory, length, starts, count, identity, key),
        5 => table_edits::replace(memory, length, starts, count, identity, key),
        _ => table_edits::retire(memory, length, starts, count, identity),
    }
}

// The new length or the refusal, and the memory afterwards; that of a long table is not printed.
fn print_said(
    output: &mut impl Write,
    said: Result<usize, Refusal>,
    memory: &[u8],
) -> io::Result<()> {
    print_number(output, said)?;
    if memory.len() <= 512 {
        lines::text(output, b" [")?;
        lines::hex(output, memory)?;
        lines::text(output, b"]")?;
    }
    Ok(())
}

// A line: the edit, the identity, what came of it, the count afterwards and the list's memory. Reads the key and the
// length.
fn print_edit(
    input: &mut impl Read,
    output: &mut impl Write,
    kind: u8,
    identity: &[u8],
    memory: &mut [u8],
    starts: &mut [u32],
    told: usize,
) -> io::Result<()> {
    let mut buffer = [0u8; 65];
    let mut count = told;
    let size = lines::field(input, &mut buffer)?;
    let length = lines::number24(input)?;
    print_name(output, kind)?;
    lines::hex(output, identity)?;
    lines::text(output, b" ")?;
    let said = edit(
        kind,
        memory,
        length,
        starts,
        &mut count,
        identity,
        lines::part(&buffer, 0, size),
    );
    print_said(output, said, memory)?;
    lines::text(output, b" ")?;
    lines::number(output, count)?;
    print_list(output, starts)
}

// A call of the input, and whether there was one: 1 a text, 2 a table after its name, 3 an identity and
// the table that it is looked for in, 4 to 6 an identity and the memory whose table is edited, 7 a table after its name
// whose list is made, 8 a table after its name and a list that is held to it.
fn call(input: &mut impl Read, output: &mut impl Write) -> io::Result<bool> {
    let kind = lines::byte(input)?;
    let room = lines::byte(input)? as usize;
    let mut a = [0u8; 129];
    let mut b = lines::buffer();
    let mut key = [0u8; 255];
    let mut list = [0u32; 300];
    let a_size = lines::field(input, &mut a)?;
    let b_size = lines::field(input, &mut b)?;
    let list_size = list_room(input)?;
    let first = lines::part(&a, 0, a_size);
    let bytes = &b[..b_size];
    let at = 300 - list_size;
    read_list(input, &mut list[at..])?;
    let count = lines::number24(input)?;
    let table = Table {
        bytes,
        starts: &list[at..],
        count,
    };
    match kind {
        1 => print_text(output, first)?,
        2 => print_table(output, first, bytes)?,
        3 => print_key(output, first, table, &mut key[255 - room..])?,
        4..=6 => {
            let memory = &mut b[..b_size];
            print_edit(input, output, kind, first, memory, &mut list[at..], count)?
        }
        7 => print_made(output, first, bytes, &mut list[at..])?,
        8 => print_judged(output, first, table)?,
        _ => {}
    }
    Ok(kind != 0)
}

// Nothing says that input ends, so the calls are counted, up to a number that no input has.
fn main(rt: HostRuntime) -> io::Result<()> {
    let mut input = rt.stdin();
    let mut output = rt.stdout();
    for _ in 0..1000000u32 {
        if !call(&mut input, &mut output)? {
            break;
        }
    }
    Ok(())
}
