// The key of an identity, by the list of line starts.
ghost use Rattle.std.specs.Prelude.{◌≡◌, ◌≤◌, ◌+◌, length, drop};
ghost use Rattle.keytable.specs.Table.{line_end, upto};
ghost use Rattle.keytable.specs.Starts.{placed, looked_up};
ghost use Rattle.refusal.specs.Lent.{Answers};

use crate::Table;
use crate::hex::key_into;
use refusal::Refusal;

// What a search finds: which of the starts is that of the first line that begins with the identity and a colon, and the
// part of the table, from a start to the line's end, that follows them.
#[derive(Clone, Copy)]
pub struct Hit {
    pub line: usize,
    pub from: usize,
    pub to: usize,
}

// Where the line ends that starts at `at`.
pub(crate) fn line_end(table: &[u8], at: usize) -> usize
    requires { at ≤ length table.now }
    ensures { result ≡ at + length (upto line_end (drop at table.now)) }
{
    at + table[at..].iter().take_while(|&&b| b != 10).count()
}

// The search ends at the first line that matches. It looks for the end of no line but that one. Its form is document 01's: a loop
// over the lines whose break yields the match, left by a label from the comparison of the bytes inside.
pub fn first_line(table: &[u8], starts: &[u32], identity: &[u8]) -> Option<Hit>
    ensures { result ≡ placed 0 identity.now table.now starts.now }
{
    let mut k = 0;
    let hit = 'lines: loop {
        if k >= starts.len() {
            break 'lines None;
        }
        let at = starts[k] as usize;
        let mut i = 0;
        while at + i < table.len() {
            let b = table[at + i];
            if i == identity.len() {
                if b == 58 {
                    let from = at + i + 1;
                    let to = line_end(table, from);
                    break 'lines Some(Hit { line: k, from, to });
                }
                break;
            }
            if b != identity[i] {
                break;
            }
            if b == 10 {
                break;
            }
            i += 1;
        }
        k += 1;
    };
    hit
}

impl Table<'_> {
    // The key that the table has for the identity, by the list, at the front of out; R10 where there are fewer starts than
    // their count, 115 where the identity isn't listed.
    pub fn lookup(self, identity: &[u8], out: &mut [u8]) -> Result<usize, Refusal>
        ensures { Answers (looked_up self.entry.bytes.now self.entry.starts.now self.entry.count identity.now) out.old result out.new }
    {
        let list = self.starts.get(..self.count).ok_or(Refusal::BadList)?;
        let hit = first_line(self.bytes, list, identity).ok_or(Refusal::UnknownPskIdentity)?;
        key_into(&self.bytes[hit.from..hit.to], out)
    }
}
