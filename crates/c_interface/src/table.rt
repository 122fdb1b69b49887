// The key table and its list of line starts, edits of both in lent memory, and UTF-8.
ghost use Rattle.std.specs.Prelude.{◌≡◌, cond, pos};
ghost use Rattle.refusal.specs.declared.Refusal.TheVariants.{BadTable};
ghost use Rattle.keytable.specs.Table.{well_formed};
ghost use Rattle.keytable.specs.Starts.{list_made, looked_up};
ghost use Rattle.table_edits.specs.Edits.{add, replace, retire, edited_in};
ghost use Rattle.utf8.specs.Utf8.{valid_utf8};
ghost use Rattle.c_interface.specs.Codes.{Codes, CodesBoth, refusal_code};

use crate::code;
use keytable::Table;
use refusal::Refusal;

// 0 for a table that is well formed, R2 for another.
pub fn tn_table_test(table: &[u8]) -> i32
    ensures { result ≡ cond (well_formed table.now) (pos 0) (refusal_code BadTable) }
{
    if keytable::well_formed(table) {
        return 0;
    }
    code::of_refusal(Refusal::BadTable)
}

// The starts of the table's lines, at the front of the lent list, and how many they are; R2 for a table that is not
// well formed.
pub fn tn_table_list(table: &[u8], starts: &mut [u32]) -> i32
    ensures { Codes (list_made table.now) starts.old result starts.new }
{
    code::of_answer(keytable::make_list(table, starts))
}

// The identity's key, by the table's list; alert 115 where the table has none.
pub fn tn_table_lookup(
    table: &[u8],
    starts: &[u32],
    count: usize,
    identity: &[u8],
    out: &mut [u8],
) -> i32
    ensures { Codes (looked_up table.now starts.now count identity.now) out.old result out.new }
{
    let table = Table {
        bytes: table,
        starts,
        count,
    };
    code::of_answer(table.lookup(identity, out))
}

// The table in the memory's first `length` bytes with the line of the identity and the key, as its last; its list with it.
pub fn tn_table_add(
    memory: &mut [u8],
    length: usize,
    starts: &mut [u32],
    count: &mut usize,
    identity: &[u8],
    key: &[u8],
) -> i32
    ensures { CodesBoth (edited_in memory.old length starts.old count.old (add identity.now key.now))
        memory.old starts.old count.old result memory.new starts.new count.new }
{
    code::of_answer(table_edits::add(memory, length, starts, count, identity, key))
}

// That table with another key for the identity.
pub fn tn_table_replace(
    memory: &mut [u8],
    length: usize,
    starts: &mut [u32],
    count: &mut usize,
    identity: &[u8],
    key: &[u8],
) -> i32
    ensures { CodesBoth (edited_in memory.old length starts.old count.old (replace identity.now key.now))
        memory.old starts.old count.old result memory.new starts.new count.new }
{
    code::of_answer(table_edits::replace(memory, length, starts, count, identity, key))
}

// That table without the identity's line.
pub fn tn_table_retire(
    memory: &mut [u8],
    length: usize,
    starts: &mut [u32],
    count: &mut usize,
    identity: &[u8],
) -> i32
    ensures { CodesBoth (edited_in memory.old length starts.old count.old (retire identity.now))
        memory.old starts.old count.old result memory.new starts.new count.new }
{
    code::of_answer(table_edits::retire(memory, length, starts, count, identity))
}

// 1 for valid UTF-8, 0 for other bytes.
pub fn tn_valid_utf8(bytes: &[u8]) -> i32
    ensures { result ≡ cond (valid_utf8 bytes.now) (pos 1) (pos 0) }
{
    if utf8::valid_utf8(bytes) {
        return 1;
    }
    0
}
