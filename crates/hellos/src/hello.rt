// What the two hellos share: the fields in front, the extension block at the end, and their writer.
ghost use Rattle.std.specs.Prelude.{◌≡◌, ◌+◌, ◌≤◌, ◌<◌, [], ◌∷◌, ◌++◌, length, drop};
ghost use Rattle.std.specs.Option.{option_copied};
ghost use Rattle.std.proofs.Math.Seq.{paste};
ghost use Rattle.endian.specs.Number.{be};
ghost use Rattle.refusal.specs.Lent.{Answers};
ghost use Rattle.layout.specs.Layout.{message, written};
ghost use Rattle.hellos.specs.Hello.{hello_with, between, front_given, session_at, block_at, front_rules, front_bytes, block_rules, tail_bytes};

use crate::put;
use layout::{Part, place, types};
use refusal::Refusal;

// Where the session id stands.
pub(crate) fn session_id(message: &[u8]) -> Option<Part>
    ensures { result ≡ session_at message.now }
{
    place::part8(message, 38).filter(|part| part.len <= 32)
}

// Where the block stands that starts at `at`: nowhere, which is `Some(None)`, where the message ends there.
pub(crate) fn tail(message: &[u8], at: usize) -> Option<Option<Part>>
    ensures { result ≡ block_at message.now at }
{
    if at == message.len() {
        return Some(None);
    }
    let block = place::last16(message, at)?;
    if !extensions::test(block.of(message)) {
        return None;
    }
    Some(Some(block))
}

// ---- writing

// Whether version, random and session id are such as a hello may carry.
fn front_valid(version: usize, random: &[u8], session_id: &[u8]) -> bool
    ensures { result ≡ front_rules version random.now session_id.now }
{
    version <= 65535 && random.len() == 32 && session_id.len() <= 32
}

// Whether the block is such as a hello may carry; an absent one always is.
fn tail_valid(block: Option<&[u8]>) -> bool
    ensures { result ≡ block_rules (option_copied block.entry) }
{
    block.is_none_or(|b| b.len() <= 65535 && extensions::test(b))
}

// The bytes that the block takes with its length.
fn tail_len(block: Option<&[u8]>) -> usize
    ensures { result ≡ length (tail_bytes (option_copied block.entry)) }
{
    block.map_or(0, |b| 2 + b.len())
}

// Header, version, random and session id at the front of the output; the answer is where the rest goes.
fn put_front(
    kind: u8,
    body_len: usize,
    version: usize,
    random: &[u8],
    session_id: &[u8],
    out: &mut [u8],
) -> usize
    requires { (length random.now ≡ 32) × (length session_id.now ≤ 32) × (39 + length session_id.now ≤ length out.old) }
    ensures value { result ≡ 39 + length session_id.now }
    ensures out_after { out.new ≡ paste out.old 0 (kind ∷ (be 3 body_len ++ front_bytes version random.now session_id.now [])) (39 + length session_id.now) }
{
    let n = endian::bytes::<3>(body_len as u64);
    let v = endian::bytes::<2>(version as u64);
    let head = [kind, n[0], n[1], n[2], v[0], v[1]];
    let size = [session_id.len() as u8];
    put::four(&head, random, &size, session_id, out, 0)
}

// The block at its place, if there is one.
fn put_tail(block: Option<&[u8]>, out: &mut [u8], at: usize) -> usize
    requires { at + length (tail_bytes (option_copied block)) ≤ length out.old }
    ensures value { result ≡ at + length (tail_bytes (option_copied block.entry)) }
    ensures out_after { out.new ≡ paste out.old at (tail_bytes (option_copied block.entry)) (length (tail_bytes (option_copied block.entry))) }
{
    match block {
        Some(b) => put::vector16(b, out, at),
        None => at,
    }
}

// The message at the front of an output that has room for it.
fn put_all(
    kind: u8,
    body_len: usize,
    version: usize,
    random: &[u8],
    session_id: &[u8],
    a: &[u8],
    b: &[u8],
    c: &[u8],
    d: &[u8],
    block: Option<&[u8]>,
    out: &mut [u8],
) -> usize
    requires { (length random.now ≡ 32) × (length session_id.now ≤ 32)
        × (body_len ≡ 35 + length session_id.now + length (between a.now b.now c.now d.now) + length (tail_bytes (option_copied block)))
        × (4 + body_len ≤ length out.old) }
    ensures value { result ≡ 4 + body_len }
    ensures out_after { out.new ≡ message kind (front_bytes version random.now session_id.now
        (between a.now b.now c.now d.now ++ tail_bytes (option_copied block.entry)))
        ++ drop (4 + body_len) out.old }
{
    let at = put_front(kind, body_len, version, random, session_id, out);
    let next = put::four(a, b, c, d, out, at);
    put_tail(block, out, next)
}

// A hello of this type: its front, four parts between, and the block. R5 for a front or a block that no
// hello may carry, or past the limit on a message; then R1.
pub(crate) fn write(
    kind: u8,
    version: usize,
    random: &[u8],
    session_id: &[u8],
    a: &[u8],
    b: &[u8],
    c: &[u8],
    d: &[u8],
    block: Option<&[u8]>,
    out: &mut [u8],
) -> Result<usize, Refusal>
    requires { (length a.now < 65536) × (length b.now < 65536) × (length c.now < 65536) × (length d.now < 65536) }
    ensures { Answers (written (hello_with kind (between a.now b.now c.now d.now))
        (front_given version random.now session_id.now (option_copied block.entry))) out.old result out.new }
{
    if !front_valid(version, random, session_id) || !tail_valid(block) {
        return Err(Refusal::BadValue);
    }
    let parts = a.len() + b.len() + c.len() + d.len();
    let body_len = 35 + session_id.len() + parts + tail_len(block);
    if types::MESSAGE_LIMIT - 4 < body_len {
        return Err(Refusal::BadValue);
    }
    if out.len() < 4 + body_len {
        return Err(Refusal::ShortOutput);
    }
    let end = put_all(
        kind, body_len, version, random, session_id, a, b, c, d, block, out,
    );
    Ok(end)
}
