// The sixty-four rounds, FIPS 180-4 section 6.2.2, steps 2 and 3.
ghost use Rattle.std.specs.Prelude.{◌≡◌, ℕ, ◌+◌, ◌*◌, ◌<◌, List, length, take, drop};
ghost use Rattle.sha256_block.specs.declared.Words.{Words};
ghost use Rattle.sha256_block.specs.Block.{schedule, round, rounds};

use super::Words;
use super::constants::{Four, constants};
use super::functions::{ch, large_sigma0, large_sigma1, maj, plus};
use super::schedule::renew;

#[tactic(auto, unfolding(crate::specs::Block::round))]
fn one_round(v: Words, k: u32, w: u32) -> Words
    ensures { result ≡ round k w v }
{
    let t1 = plus(
        plus(plus(plus(v.h, large_sigma1(v.e)), ch(v.e, v.f, v.g)), k),
        w,
    );
    let t2 = plus(large_sigma0(v.a), maj(v.a, v.b, v.c));
    Words {
        a: plus(t1, t2),
        b: v.a,
        c: v.b,
        d: v.c,
        e: plus(v.d, t1),
        f: v.e,
        g: v.f,
        h: v.g,
    }
}

// Four rounds, with their constants and their words.
fn four_rounds(v: Words, k: Four, w0: u32, w1: u32, w2: u32, w3: u32) -> Words
    ensures { result ≡ round k.3 w3 (round k.2 w2 (round k.1 w1 (round k.0 w0 v))) }
{
    one_round(
        one_round(one_round(one_round(v, k.0, w0), k.1, w1), k.2, w2),
        k.3,
        w3,
    )
}

// The sixteen rounds from 4 n on, of which the ring has the words. Eight rounds put each working variable back in its own
// place, so that none is moved.
fn sixteen_rounds(start: Words, n: usize, w: &[u32; 16]) -> Words
    requires { n < 13 }
    ensures { (W : List ℕ) (s : Words) → start ≡ rounds (4 * n) W s
        → w.now ≡ take 16 (drop (4 * n) W) → result ≡ rounds (4 * n + 16) W s }
{
    let mut v = start;
    v = four_rounds(v, constants(n), w[0], w[1], w[2], w[3]);
    v = four_rounds(v, constants(n + 1), w[4], w[5], w[6], w[7]);
    v = four_rounds(v, constants(n + 2), w[8], w[9], w[10], w[11]);
    v = four_rounds(v, constants(n + 3), w[12], w[13], w[14], w[15]);
    v
}

// The sixty-four rounds, with the block's words in the ring. Sixteen rounds are called at one place alone: of two calls the
// compiler would put neither in its place, and a block would take a tenth longer.
pub(crate) fn all_rounds(start: Words, w: &mut [u32; 16]) -> Words
    requires { length w.old ≡ 16 }
    ensures { result ≡ rounds 64 (schedule 48 w.old) start }
{
    let mut v = start;
    for turn in 0..4 {
        if turn > 0 {
            renew(w);
        }
        v = sixteen_rounds(v, 4 * turn, w);
    }
    v
}
