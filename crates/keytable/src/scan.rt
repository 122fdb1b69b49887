// One pass over a table: whether it is well formed, and where its lines start.
ghost use Rattle.std.specs.Prelude.{◌≡◌, true, ◌≤◌, length};
ghost use Rattle.keytable.specs.Table.{ended};
ghost use Rattle.keytable.specs.Inner.{Scans};

use crate::checks::{ended, read_line};
use crate::distinct::{fingerprint, repeated};

// How many lines a table has that is short enough and ends in 0A, if it has bytes; none where it is not well
// formed.
fn scan_lines(table: &[u8], starts: &mut [u16; 256]) -> Option<usize>
    requires table_len_bound { length table.now ≤ 65536 }
    requires table_value { ended table.now ≡ true }
    requires starts_len { length starts.old ≡ 256 }
    ensures { Scans table.now result starts.new }
{
    let mut heads = [0u16; 256];
    let mut links = [0u16; 256];
    let mut tags = [0u16; 256];
    let mut n = 0;
    let mut at = 0;
    // A turn goes on by a whole line, whose end `read_line` finds, so no `for` over bytes.
    while at < table.len() {
        if n == 256 {
            return None;
        }
        let line = read_line(table, at)?;
        let name = &table[at..line.colon];
        let p = fingerprint(name);
        let bucket = (p % 256) as usize;
        let tag = (p / 256 % 65536) as u16;
        let latest = heads[bucket];
        if repeated(table, starts, &tags, &links, n, latest as usize, name, tag) {
            return None;
        }
        starts[n] = at as u16;
        tags[n] = tag;
        links[n] = latest;
        n += 1;
        heads[bucket] = n as u16;
        at = line.end + 1;
    }
    Some(n)
}

// How many lines a table has, with their starts at the front of `starts`; none where it is not well formed.
pub(crate) fn scan(table: &[u8], starts: &mut [u16; 256]) -> Option<usize>
    requires { length starts.old ≡ 256 }
    ensures { Scans table.now result starts.new }
{
    if table.len() > 65536 || !ended(table) {
        return None;
    }
    scan_lines(table, starts)
}
