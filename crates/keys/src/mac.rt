// HMAC over SHA-256 in its steps: the key's block, the two hashes that have absorbed it, and the value when the inner
// hash has absorbed the message. Each step counts the blocks that it has compressed.
ghost use Rattle.std.specs.Prelude.{◌≡◌, List, ℕ, ◌-◌, ◌^◌, ◌≤◌, length};
ghost use Rattle.sha256.specs.Hash.{limit};
ghost use Rattle.sha256.specs.State.{absorb, fresh};
ghost use Rattle.keys.specs.Hmac.{key_block, xored};
ghost use Rattle.keys.specs.Counts.{key_blocks};
ghost use Rattle.keys.specs.Inner.{keyed_by, Macs};

use sha256::Sha256;

// A key's block, and how many blocks were compressed for it.
#[derive(Drop)]
pub struct Block {
    pub bytes: [u8; 64],
    pub blocks: u64,
}

// The inner and the outer hash under one key, each with its padded block absorbed, and how many blocks were
// compressed for the key's digest.
#[derive(Clone, Copy)]
pub struct Keyed {
    pub inner: Sha256,
    pub outer: Sha256,
    pub blocks: u64,
}

// A value, and how many blocks an HMAC takes that starts afresh.
#[derive(Drop)]
pub struct Mac {
    pub value: [u8; 32],
    pub blocks: u64,
}

// The key with zeros behind it, or its digest if it is longer than a block.
fn block_of(key: &[u8]) -> Block
    requires { length key.now ≤ limit }
    ensures bytes_value { (result.bytes ≡ key_block key.now) × (result.blocks ≡ key_blocks key.now) }
    ensures blocks_bound { result.blocks ≤ 2 ^ 56 }
{
    let mut bytes = [0u8; 64];
    if key.len() <= 64 {
        lists::copy(key, &mut bytes);
        return Block { bytes, blocks: 0 };
    }
    let done = Sha256::new().update(key).finish_counted(&mut bytes);
    Block {
        bytes,
        blocks: done.map_or(0, |done| done.blocks),
    }
}

// A hash that has absorbed the block with each byte XOR pad.
fn begin(block: [u8; 64], pad: u8) -> Sha256
    ensures { result ≡ absorb fresh (xored block pad) }
{
    let mut padded = block;
    for byte in &mut padded {
        *byte ^= pad;
    }
    Sha256::new().update(&padded)
}

// The two hashes under a key.
pub(crate) fn under(key: &[u8]) -> Keyed
    requires { length key.now ≤ limit }
    ensures value { result ≡ keyed_by key.now }
    ensures blocks_bound { result.blocks ≤ 2 ^ 56 }
{
    let block = block_of(key);
    let bytes = block.bytes;
    let inner = begin(bytes, 0x36);
    let outer = begin(bytes, 0x5c);
    Keyed {
        inner,
        outer,
        blocks: block.blocks,
    }
}

// The value, from the inner hash when all of the message has come, and the outer one of the same key, for whose
// digest so many blocks were compressed.
pub(crate) fn end(inner: Sha256, outer: Sha256, blocks: u64) -> Mac
    requires { blocks ≤ 2 ^ 56 }
    ensures by_index { (key text : List ℕ) → inner ≡ absorb (keyed_by key).inner text → outer ≡ (keyed_by key).outer → blocks ≡ key_blocks key
        → length text ≤ limit - 64 → Macs key text result }
    ensures blocks_bound { result.blocks ≤ 2 ^ 58 }
{
    let mut digest = [0u8; 32];
    let first = inner
        .finish_counted(&mut digest)
        .map_or(0, |done| done.blocks);
    let mut value = [0u8; 32];
    let second = outer
        .update(&digest)
        .finish_counted(&mut value)
        .map_or(0, |done| done.blocks);
    Mac {
        value,
        blocks: blocks + first + second,
    }
}
