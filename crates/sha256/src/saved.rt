// A hash under way as 104 bytes and back, for a host that keeps a connection between calls in
// memory of its own. Every 104 bytes stand for a hash.
//
// `save` promises its bytes and also that they stand for the hash that was saved. The second rests
// on the types of the fields (a word is below 2^32), which a caller in another crate does not see:
// promised here, it holds for every caller.
ghost use Rattle.std.specs.Prelude.{◌≡◌, ◌+◌, ◌≤◌};
ghost use Rattle.sha256.specs.Saved.{saved, word_at, restored};

use super::{Sha256, concatenation};
use sha256_block::Words;

// A hash as bytes.
pub fn save(state: Sha256) -> [u8; 104]
    ensures value { result ≡ saved state }
    ensures result_value { restored result ≡ state }
{
    let words = concatenation(state.words);
    let block = state.block;
    let count = endian::bytes::<8>(state.count);
    lists::joined::<104>(&[&words, &block, &count])
}

// The word at a place.
fn word(bytes: &[u8; 104], at: usize) -> u32
    requires { at + 4 ≤ 104 }
    ensures { result ≡ word_at at bytes.now }
{
    u32::from_be_bytes(lists::array_at::<4>(bytes, at))
}

// The eight words.
#[tactic(auto, unfolding(crate::specs::Saved::restored))]
fn words(bytes: &[u8; 104]) -> Words
    ensures { result ≡ (restored bytes.now).words }
{
    Words {
        a: word(bytes, 0),
        b: word(bytes, 4),
        c: word(bytes, 8),
        d: word(bytes, 12),
        e: word(bytes, 16),
        f: word(bytes, 20),
        g: word(bytes, 24),
        h: word(bytes, 28),
    }
}

// The hash that the bytes stand for.
#[tactic(auto, unfolding(crate::specs::Saved::restored))]
pub fn restore(bytes: [u8; 104]) -> Sha256
    ensures { result ≡ restored bytes }
{
    let words = words(&bytes);
    let block = lists::array_at::<64>(&bytes, 32);
    let count = lists::array_at::<8>(&bytes, 96);
    Sha256 {
        words,
        block,
        count: u64::from_be_bytes(count),
    }
}
