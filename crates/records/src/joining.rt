// Handshake messages in the bytes of records: where one ends, and what is held of one that is not finished.
ghost use Rattle.std.specs.Prelude.{◌≡◌, ◌≤◌, length, take};
ghost use Rattle.records.specs.Joining as Joining;
ghost use Rattle.records.specs.Joining.{held_in};

// Where a message with this header ends.
pub fn message_end(header: [u8; 4]) -> usize
    ensures { result ≡ Joining.message_end header }
{
    4 + endian::number24(header[1], header[2], header[3])
}

// How many of n bytes the memory has.
fn within(memory: &[u8], n: usize) -> usize
    ensures { (result ≤ length memory.now) × (take result memory.now ≡ take n memory.now) }
{
    if memory.len() < n {
        return memory.len();
    }
    n
}

// How many bytes of lent memory, of which n are kept, are a message that is not finished.
pub fn held(memory: &[u8], n: usize) -> usize
    ensures { (result ≤ length memory.now) × (take result memory.now ≡ held_in memory.now n) }
{
    let kept = within(memory, n);
    if kept < 4 {
        return kept;
    }
    if message_end([memory[0], memory[1], memory[2], memory[3]]) <= kept {
        return 0;
    }
    kept
}
