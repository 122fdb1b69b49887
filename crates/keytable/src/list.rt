// The list of line starts (document 02, P6): making it, and the test that a list is the table's own.
ghost use Rattle.std.specs.Prelude.{◌≡◌, ◌&&◌, leb, length, take};
ghost use Rattle.lists.specs.Lists.{same};
ghost use Rattle.refusal.specs.Lent.{Answers, gives};
ghost use Rattle.keytable.specs.Table.{well_formed, judged};
ghost use Rattle.keytable.specs.Starts.{list_made, list_refusal};

use crate::Table;
use crate::scan::scan;
use refusal::Refusal;

// Whether the table is well formed. If not, it is R2.
pub fn well_formed(table: &[u8]) -> bool
    ensures { result ≡ well_formed table.now }
{
    let mut own = [0u16; 256];
    scan(table, &mut own).is_some()
}

// The starts at the front of the lent list, or R1 where it is shorter than they are.
fn put(own: &[u16], starts: &mut [u32]) -> Result<usize, Refusal>
    ensures { Answers (gives own.now) starts.old result starts.new }
{
    let n = own.len();
    if starts.len() < n {
        return Err(Refusal::ShortOutput);
    }
    for (i, &at) in own.iter().enumerate() {
        starts[i] = at as u32;
    }
    Ok(n)
}

// The starts of the table's lines, at the front of the lent list. R2, R1.
pub fn make_list(table: &[u8], starts: &mut [u32]) -> Result<usize, Refusal>
    ensures { Answers (list_made table.now) starts.old result starts.new }
{
    let mut own = [0u16; 256];
    let n = scan(table, &mut own).ok_or(Refusal::BadTable)?;
    put(&own[..n], starts)
}

// Whether the first `count` of the starts are those.
fn same_list(starts: &[u32], count: usize, own: &[u16]) -> bool
    ensures { result ≡ (leb count (length starts.now) && same (take count starts.now) own.now) }
{
    let Some(front) = starts.get(..count) else {
        return false;
    };
    front.len() == own.len()
        && front
            .iter()
            .zip(own)
            .all(|(&start, &at)| start == at as u32)
}

impl Table<'_> {
    // What table and list come to: R2 where the table is not well formed, R10 where the list is not its own.
    pub fn judge(self) -> Result<(), Refusal>
        ensures { result ≡ judged (list_refusal self.entry.bytes.now self.entry.starts.now self.entry.count) }
    {
        let mut own = [0u16; 256];
        let lines = scan(self.bytes, &mut own).ok_or(Refusal::BadTable)?;
        if same_list(self.starts, self.count, &own[..lines]) {
            Ok(())
        } else {
            Err(Refusal::BadList)
        }
    }
}
