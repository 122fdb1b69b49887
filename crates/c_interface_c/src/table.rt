// What C calls of `c_interface::table`, with the same clauses.
ghost use Rattle.std.specs.Prelude.{◌≡◌, cond, pos};
ghost use Rattle.refusal.specs.declared.Refusal.TheVariants.{BadTable};
ghost use Rattle.keytable.specs.Table.{well_formed};
ghost use Rattle.keytable.specs.Starts.{list_made, looked_up};
ghost use Rattle.table_edits.specs.Edits.{add, replace, retire, edited_in};
ghost use Rattle.utf8.specs.Utf8.{valid_utf8};
ghost use Rattle.c_interface.specs.Codes.{Codes, CodesBoth, refusal_code};

#[unsafe(no_mangle)]
pub extern "C" fn tn_table_test(table: &[u8]) -> i32
    ensures { result ≡ cond (well_formed table.now) (pos 0) (refusal_code BadTable) }
{
    c_interface::table::tn_table_test(table)
}

#[unsafe(no_mangle)]
pub extern "C" fn tn_table_list(table: &[u8], starts: &mut [u32]) -> i32
    ensures { Codes (list_made table.now) starts.old result starts.new }
{
    c_interface::table::tn_table_list(table, starts)
}

#[unsafe(no_mangle)]
pub extern "C" fn tn_table_lookup(
    table: &[u8],
    starts: &[u32],
    count: usize,
    identity: &[u8],
    out: &mut [u8],
) -> i32
    ensures { Codes (looked_up table.now starts.now count identity.now) out.old result out.new }
{
    c_interface::table::tn_table_lookup(table, starts, count, identity, out)
}

#[unsafe(no_mangle)]
pub extern "C" fn tn_table_add(
    memory: &mut [u8],
    length: usize,
    starts: &mut [u32],
    count: &mut usize,
    identity: &[u8],
    key: &[u8],
) -> i32
    ensures { CodesBoth (edited_in memory.old length starts.old count.old (add identity.now key.now))
        memory.old starts.old count.old result memory.new starts.new count.new }
{
    c_interface::table::tn_table_add(memory, length, starts, count, identity, key)
}

#[unsafe(no_mangle)]
pub extern "C" fn tn_table_replace(
    memory: &mut [u8],
    length: usize,
    starts: &mut [u32],
    count: &mut usize,
    identity: &[u8],
    key: &[u8],
) -> i32
    ensures { CodesBoth (edited_in memory.old length starts.old count.old (replace identity.now key.now))
        memory.old starts.old count.old result memory.new starts.new count.new }
{
    c_interface::table::tn_table_replace(memory, length, starts, count, identity, key)
}

#[unsafe(no_mangle)]
pub extern "C" fn tn_table_retire(
    memory: &mut [u8],
    length: usize,
    starts: &mut [u32],
    count: &mut usize,
    identity: &[u8],
) -> i32
    ensures { CodesBoth (edited_in memory.old length starts.old count.old (retire identity.now))
        memory.old starts.old count.old result memory.new starts.new count.new }
{
    c_interface::table::tn_table_retire(memory, length, starts, count, identity)
}

#[unsafe(no_mangle)]
pub extern "C" fn tn_valid_utf8(bytes: &[u8]) -> i32
    ensures { result ≡ cond (valid_utf8 bytes.now) (pos 1) (pos 0) }
{
    c_interface::table::tn_valid_utf8(bytes)
}
