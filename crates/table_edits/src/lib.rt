// Edits of a key table where it stands (document 02, P1), and of the list of its line starts (P6): a line is
// added, one identity's key replaced, one identity's line retired. The table is the first `length` bytes of
// the lent memory, its list the first `count` of the lent starts. Each call answers with the length of the
// edited table, which stands at the front of the memory then, and its list at the front of the starts, the
// rest of both as it was; or it refuses, and nothing was written.
//
// Table and list are tested, the line is looked for, and what stands behind it is moved once.
#![tactic(auto)]

mod hex;
mod list;

ghost use Rattle.std.specs.Prelude.{◌≡◌, true, ◌≤◌, take};
ghost use Rattle.std.proofs.Math.ListN as ListN;
ghost use Rattle.refusal.specs.Lent.{Answers};
ghost use Rattle.keytable.specs.Table.{lines, ended};
ghost use Rattle.table_edits.specs.Edits.{add, replace, retire, lines_after, edited_in, EditsBoth, lower_hex, roomed, sized};
ghost use Rattle.table_edits.specs.Inner.{bounded, spliced, sought_in, place_in, size_judged, OwnList, Unbroken};

use keytable::{Hit, Table};
use refusal::Refusal;

// Which of the lines is the identity's, and where its key stands, from its start to the line's end: after the test of
// the edit's own bytes, where `secret` says whether the key is allowed.
fn seek(table: &[u8], starts: &[u32], identity: &[u8], secret: bool) -> Result<Option<Hit>, Refusal>
    ensures { result ≡ sought_in table.now starts.now identity.now secret }
{
    if !keytable::valid_identity(identity) || !secret {
        return Err(Refusal::BadValue);
    }
    Ok(keytable::first_line(table, starts, identity))
}

// What all edits begin with: the tests of table and list come before those of the edit.
fn locate(
    memory: &[u8],
    length: usize,
    starts: &[u32],
    count: usize,
    identity: &[u8],
    secret: bool,
) -> Result<Option<Hit>, Refusal>
    ensures { result ≡ place_in memory.now length starts.now count identity.now secret }
{
    let Some(bytes) = memory.get(..length) else {
        return Err(Refusal::BadTable);
    };
    let table = Table {
        bytes,
        starts,
        count,
    };
    table.judge()?;
    seek(bytes, &starts[..count], identity, secret)
}

// Whether a table of so many bytes is short enough (R8), and the memory has room for it (R1).
fn judge_size(size: usize, room: usize) -> Result<(), Refusal>
    ensures { result ≡ size_judged size room }
{
    if 65536 < size {
        return Err(Refusal::TableFull);
    }
    if room < size {
        return Err(Refusal::ShortOutput);
    }
    Ok(())
}

// The line behind the last one, and its start behind the others, where there is room for both. A list's count
// is the number of its table's lines, so none need be counted.
fn append(
    memory: &mut [u8],
    length: usize,
    starts: &mut [u32],
    count: &mut usize,
    identity: &[u8],
    key: &[u8],
) -> Result<usize, Refusal>
    requires length_len_bound { length ≤ ListN.length memory.old }
    requires length_len_bound_2 { length ≤ 65536 }
    requires memory_value { ended (take length memory.old) ≡ true }
    requires own_list { OwnList (take length memory.old) starts.old count.old }
    requires identity_bound { ListN.length identity.now ≤ 128 }
    requires key_bound { ListN.length key.now ≤ 64 }
    requires unbroken { Unbroken (lines_after (add identity.now key.now) (lines (take length memory.old))) }
    ensures { EditsBoth (roomed (ListN.length starts.old) (sized (lines_after (add identity.now key.now) (lines (take length memory.old)))))
        memory.old starts.old count.old result memory.new starts.new count.new }
{
    let lines = *count;
    if 256 <= lines {
        return Err(Refusal::TableFull);
    }
    let end = length + identity.len() + 2 * key.len() + 2;
    judge_size(end, memory.len())?;
    if starts.len() <= lines {
        return Err(Refusal::ShortOutput);
    }
    hex::put_line(identity, key, &mut memory[length..end]);
    starts[lines] = length as u32;
    *count = lines + 1;
    Ok(end)
}

// The key's digits in the place of those from `from` to `to`, where there is room for them.
fn put_digits(
    memory: &mut [u8],
    length: usize,
    from: usize,
    to: usize,
    key: &[u8],
) -> Result<usize, Refusal>
    requires length_len_bound { length ≤ ListN.length memory.old }
    requires length_len_bound_2 { length ≤ 65536 }
    requires from_le_to { from ≤ to }
    requires to_in_bounds { to ≤ length }
    requires key_bound { ListN.length key.now ≤ 64 }
    ensures { Answers (bounded (spliced from to (lower_hex key.now) (take length memory.old)))
        memory.old result memory.new }
{
    let digits_end = from + 2 * key.len();
    let new_length = digits_end + (length - to);
    judge_size(new_length, memory.len())?;
    memory.copy_within(to..length, digits_end);
    hex::put_key(key, &mut memory[from..digits_end]);
    Ok(new_length)
}

// The line of the identity and the key, as the table's last one. R2, R10, R5, R6 where the identity is listed
// already, R8, R1.
pub fn add(
    memory: &mut [u8],
    length: usize,
    starts: &mut [u32],
    count: &mut usize,
    identity: &[u8],
    key: &[u8],
) -> Result<usize, Refusal>
    ensures { EditsBoth (edited_in memory.old length starts.old count.old (add identity.now key.now))
        memory.old starts.old count.old result memory.new starts.new count.new }
{
    let found = locate(
        memory,
        length,
        starts,
        *count,
        identity,
        keytable::valid_secret(key),
    )?;
    match found {
        Some(_) => Err(Refusal::AlreadyListed),
        None => append(memory, length, starts, count, identity, key),
    }
}

// The identity's key, in its line's place. R2, R10, R5, R7 where the identity is not listed, R8, R1.
pub fn replace(
    memory: &mut [u8],
    length: usize,
    starts: &mut [u32],
    count: &mut usize,
    identity: &[u8],
    key: &[u8],
) -> Result<usize, Refusal>
    ensures { EditsBoth (edited_in memory.old length starts.old count.old (replace identity.now key.now))
        memory.old starts.old count.old result memory.new starts.new count.new }
{
    let found = locate(
        memory,
        length,
        starts,
        *count,
        identity,
        keytable::valid_secret(key),
    )?;
    let Some(Hit { line, from, to }) = found else {
        return Err(Refusal::NotListed);
    };
    let n = put_digits(memory, length, from, to, key)?;
    list::follow(starts, line + 1, *count, line + 1, to, from + 2 * key.len());
    Ok(n)
}

// The table without the identity's line. R2, R10, R5, R7 where the identity is not listed. The bytes
// behind the shorter table stay as they were, keys among them, and so does the list's old last start.
pub fn retire(
    memory: &mut [u8],
    length: usize,
    starts: &mut [u32],
    count: &mut usize,
    identity: &[u8],
) -> Result<usize, Refusal>
    ensures { EditsBoth (edited_in memory.old length starts.old count.old (retire identity.now))
        memory.old starts.old count.old result memory.new starts.new count.new }
{
    let found = locate(memory, length, starts, *count, identity, true)?;
    let Some(Hit { line, from, to }) = found else {
        return Err(Refusal::NotListed);
    };
    let start = from - 1 - identity.len();
    let next = to + 1;
    memory.copy_within(next..length, start);
    list::follow(starts, line + 1, *count, line, next, start);
    *count -= 1;
    Ok(start + (length - next))
}
