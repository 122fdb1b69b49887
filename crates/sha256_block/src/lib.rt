// SHA-256's computation on whole blocks (FIPS 180-4, sections 4, 5.2.1 and 6.2.2). What a caller sees is
// the hash value after the blocks; how the schedule is kept and the rounds are made stays in here.
#![tactic(auto)]

mod constants;
mod functions;
mod rounds;
mod schedule;

ghost use Rattle.std.specs.Prelude.{◌≡◌, length};
ghost use Rattle.sha256_block.specs.Block.{added, compress};
ghost use Rattle.sha256_block.specs.Blocks.{parse, hash_blocks};

use functions::plus;
use rounds::all_rounds;
use schedule::load;

// Eight 32-bit words: the hash value H0 to H7, and the working variables a to h.
#[derive(Clone, Copy)]
pub struct Words {
    pub a: u32,
    pub b: u32,
    pub c: u32,
    pub d: u32,
    pub e: u32,
    pub f: u32,
    pub g: u32,
    pub h: u32,
}

#[tactic(auto, unfolding(crate::specs::Block::added))]
fn sum(v: Words, h: Words) -> Words
    ensures { result ≡ added v h }
{
    Words {
        a: plus(v.a, h.a),
        b: plus(v.b, h.b),
        c: plus(v.c, h.c),
        d: plus(v.d, h.d),
        e: plus(v.e, h.e),
        f: plus(v.f, h.f),
        g: plus(v.g, h.g),
        h: plus(v.h, h.h),
    }
}

// The hash value after one more block.
#[tactic(auto, unfolding(crate::specs::Block::compress))]
fn next_value(h: Words, block: &[u8]) -> Words
    requires { length block.now ≡ 64 }
    ensures { result ≡ compress h block.now }
{
    let mut w = [0u32; 16];
    load(block, &mut w);
    sum(all_rounds(h, &mut w), h)
}

// The hash value after the whole blocks at the front of data; what is left of it, less than a block,
// is not looked at. It takes any hash value, so what comes of one that is not SHA-256's own is a step
// of the computation and nobody's hash: the starting words and the hash under way are crate sha256's.
pub fn all_blocks(start: Words, data: &[u8]) -> Words
    ensures { result ≡ hash_blocks start (parse «data».now) }
{
    let mut h = start;
    for block in data.chunks_exact(64) {
        h = next_value(h, block);
    }
    h
}
