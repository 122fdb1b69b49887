// The message schedule, FIPS 180-4 section 6.2.2, step 1, in a ring of sixteen words: word t + 16 takes the place of
// word t, which nothing asks for any more. Nothing outside this crate sees how the schedule is kept.
ghost use Rattle.std.specs.Prelude.{◌≡◌, ℕ, ◌+◌, ◌<◌, List, ◌++◌, length, take, drop};
ghost use Rattle.sha256_block.specs.Functions.{◌⊞◌, σ₀, σ₁};
ghost use Rattle.sha256_block.specs.Block.{words, schedule};

use super::functions::{plus, small_sigma0, small_sigma1};

// The block's sixteen words.
pub(crate) fn load(block: &[u8], w: &mut [u32])
    requires block_len { length block.now ≡ 64 }
    requires w_len { length w.old ≡ 16 }
    ensures { w.new ≡ words 16 block.now }
{
    for (t, word) in w.iter_mut().enumerate() {
        let at = 4 * t;
        *word = endian::number32(block[at], block[at + 1], block[at + 2], block[at + 3]);
    }
}

// A later word of the schedule, from those two, seven, fifteen and sixteen places before it.
fn later(w2: u32, w7: u32, w15: u32, w16: u32) -> u32
    ensures { result ≡ σ₁ w2 ⊞ w7 ⊞ σ₀ w15 ⊞ w16 }
{
    plus(plus(plus(small_sigma1(w2), w7), small_sigma0(w15)), w16)
}

// The schedule's next word, in place i. Read from place i once round, the ring is the last sixteen words of the schedule
// so far; with the next word there, it is so read from the place behind.
fn renew_place(w: &mut [u32; 16], i: usize)
    requires { i < 16 }
    ensures { (n : ℕ) (M : List ℕ) → length M ≡ 16
        → drop i w.old ++ take i w.old ≡ drop (n + i) (schedule (n + i) M)
        → drop (i + 1) w.new ++ take (i + 1) w.new ≡ drop (n + (i + 1)) (schedule (n + (i + 1)) M) }
{
    w[i] = later(w[(i + 14) % 16], w[(i + 9) % 16], w[(i + 1) % 16], w[i]);
}

// The next sixteen words, each in the place of the one sixteen before it. The places are written out, so that the compiler
// knows every index; one that is computed as the loop goes costs more.
pub(crate) fn renew(w: &mut [u32; 16])
    ensures { (n : ℕ) (M : List ℕ) → length M ≡ 16
        → w.old ≡ drop n (schedule n M) → w.new ≡ drop (n + 16) (schedule (n + 16) M) }
{
    renew_place(w, 0);
    renew_place(w, 1);
    renew_place(w, 2);
    renew_place(w, 3);
    renew_place(w, 4);
    renew_place(w, 5);
    renew_place(w, 6);
    renew_place(w, 7);
    renew_place(w, 8);
    renew_place(w, 9);
    renew_place(w, 10);
    renew_place(w, 11);
    renew_place(w, 12);
    renew_place(w, 13);
    renew_place(w, 14);
    renew_place(w, 15);
}
