// The extension block of a hello (document 01, "Message layouts"; RFC 5246, section 7.4.1.4; RFC 5077,
// section 3.2): going through it, its rules, and writing one extension.
#![tactic(auto)]

ghost use Rattle.std.specs.Prelude.{◌≡◌, ◌+◌, ◌/◌, ◌%◌, ◌^◌, ◌<◌};
ghost use Rattle.refusal.specs.Lent.{Answers};
ghost use Rattle.extensions.specs.Extensions.{extension_written, ticket_extension, step_at, extensions_in, block_rule};
ghost use Rattle.extensions.specs.Parts.{nearer, pass_over};

use layout::put;
use refusal::Refusal;

// What stands at a place of a block. Of the three none is an error or the lack of another: an Option in a Result reads worse.
#[derive(Drop)]
pub enum Step {
    // An extension: its type, and where its data stands. The next one starts behind the data.
    Extension {
        kind: usize,
        start: usize,
        len: usize,
    },
    // Nothing more.
    End,
    // An extension that is cut off.
    Refused,
}

// A way through a block: from 0 on, and from each extension's data on.
pub fn next(block: &[u8], at: usize) -> Step
    ensures { result ≡ step_at block.now at }
{
    if block.len() <= at {
        return Step::End;
    }
    if block.len() - at < 4 {
        return Step::Refused;
    }
    let kind = endian::number16(block[at], block[at + 1]);
    let len = endian::number16(block[at + 2], block[at + 3]);
    let start = at + 4;
    if block.len() - start < len {
        return Step::Refused;
    }
    Step::Extension { kind, start, len }
}

// A type twice is looked for by eight parts of the types, 8,192 numbers each: a bit for each of them takes
// a kilobyte. A part that has no extension needs no pass.

// The word with one more bit, which was clear.
fn with_bit(word: usize, bit: usize) -> usize
    requires { (bit < 64) × (word / 2 ^ bit % 2 ≡ 0) }
    ensures { result ≡ word + 2 ^ bit }
{
    word | (1 << bit)
}

// The nearest part above `part` of those seen, of which `nearest` was, when an extension of another is there.
fn nearer(part: usize, other: usize, nearest: usize) -> usize
    ensures { result ≡ nearer part other nearest }
{
    if part < other && other < nearest {
        other
    } else {
        nearest
    }
}

// What a pass over a block says of the extensions whose types are in one part.
#[derive(Drop)]
enum Pass {
    // No type is there twice. The nearest part above that has extensions too; 8 where there is none.
    Holds { nearest: usize },
    // One is, or the block is not made of whole extensions.
    Fails,
}

fn test_part(block: &[u8], part: usize) -> Pass
    ensures { result ≡ pass_over part (extensions_in block.now) }
{
    let mut words = [0usize; 128];
    let mut nearest = 8;
    let mut at = 0;
    // A loop over steps, no `while let`: the end and an extension that is cut off have answers of their own.
    loop {
        match next(block, at) {
            Step::Extension { kind, start, len } => {
                let behind = start + len;
                let own = kind / 8192;
                if own == part {
                    let place = kind / 64 % 128;
                    let word = words[place];
                    let bit = kind % 64;
                    if (word >> bit) % 2 != 0 {
                        return Pass::Fails;
                    }
                    words[place] = with_bit(word, bit);
                } else {
                    nearest = nearer(part, own, nearest);
                }
                at = behind;
            }
            Step::End => return Pass::Holds { nearest },
            Step::Refused => return Pass::Fails,
        }
    }
}

// Whether a hello may carry the block: it is made of whole extensions, and no type is there twice. The
// cost is linear in the block's length: at most a pass for each part.
pub fn test(block: &[u8]) -> bool
    ensures { result ≡ block_rule block.now }
{
    let mut part = 0;
    // No `for` over the parts: those without extensions are left out.
    while part < 8 {
        match test_part(block, part) {
            Pass::Holds { nearest } => part = nearest,
            Pass::Fails => return false,
        }
    }
    true
}

// ---- writing

// One extension: R5 for a type or a length that two bytes do not hold, then R1.
pub fn write(kind: usize, contents: &[u8], out: &mut [u8]) -> Result<usize, Refusal>
    ensures { Answers (extension_written (record { kind = kind; contents = contents.now })) out.old result out.new }
{
    if 65535 < kind || 65535 < contents.len() {
        return Err(Refusal::BadValue);
    }
    let number = endian::bytes::<2>(kind as u64);
    let size = endian::bytes::<2>(contents.len() as u64);
    let head = [number[0], number[1], size[0], size[1]];
    put::two(&head, contents, out)
}

// The SessionTicket extension with a ticket: R5 for a ticket whose length two bytes do not hold, then R1.
pub fn write_ticket(ticket: &[u8], out: &mut [u8]) -> Result<usize, Refusal>
    ensures { Answers (extension_written (ticket_extension ticket.now)) out.old result out.new }
{
    write(35, ticket, out)
}
