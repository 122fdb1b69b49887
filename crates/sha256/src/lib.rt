// SHA-256 (FIPS 180-4): a state that absorbs a message in any parts, and the digest of a whole
// message. The computation on blocks is crate sha256_block's.
//
// specs/ has FIPS 180-4 section by section, and State.antt has what the state means.
// proofs/Finish.antt has the theorem that joins the two.
#![tactic(auto)]

pub mod saved;

ghost use Rattle.std.specs.Prelude.{◌≡◌, ◌∷◌, ◌++◌, ◌+◌, ◌-◌, ◌*◌, ◌%◌, ◌^◌, ◌≤◌, ◌<◌, length, take, drop, replicate, IfOk};
ghost use Rattle.endian.specs.Number.{be};
ghost use Rattle.refusal.specs.Lent.{Answers};
ghost use Rattle.sha256_block.specs.Blocks.{parse, hash_blocks};
ghost use Rattle.sha256.specs.Message.{padding};
ghost use Rattle.sha256.specs.Hash.{limit, sha256, concatenated};
ghost use Rattle.sha256.specs.State.{fresh, over, absorb, finished};
ghost use Rattle.sha256.specs.Report.{compressed, said};

use refusal::Refusal;
use sha256_block::{Words, all_blocks};

// A hash under way. specs/State.antt says what each field means.
#[derive(Clone, Copy)]
pub struct Sha256 {
    words: Words,
    block: [u8; 64],
    count: u64,
}

// How many bytes were written, and how many blocks went through the compression function for them.
#[derive(Drop)]
pub struct Reported {
    pub len: usize,
    pub blocks: u64,
}

// The hash value when the padding has come, and how many blocks made it.
#[derive(Drop)]
struct Padded {
    words: Words,
    blocks: u64,
}

// The most bytes that a hash takes in all: 2^61 - 1.
const LIMIT: u64 = 0x1fff_ffff_ffff_ffff;

impl Sha256 {
    // FIPS 180-4, section 5.3.3. No caller can supply other words.
    const START: Words = Words {
        a: 0x6a09e667,
        b: 0xbb67ae85,
        c: 0x3c6ef372,
        d: 0xa54ff53a,
        e: 0x510e527f,
        f: 0x9b05688c,
        g: 0x1f83d9ab,
        h: 0x5be0cd19,
    };

    // A hash that has absorbed nothing.
    #[tactic(auto, unfolding(crate::specs::State::fresh))]
    pub fn new() -> Sha256
        ensures { result ≡ fresh }
    {
        let words = Sha256::START;
        Sha256 {
            words,
            block: [0u8; 64],
            count: 0,
        }
    }

    // A hash that was offered more than it takes.
    #[tactic(auto, unfolding(crate::specs::State::over))]
    fn past_limit() -> Sha256
        ensures { result ≡ over }
    {
        let words = Words {
            a: 0,
            b: 0,
            c: 0,
            d: 0,
            e: 0,
            f: 0,
            g: 0,
            h: 0,
        };
        Sha256 {
            words,
            block: [0u8; 64],
            count: LIMIT + 1,
        }
    }

    // The block with data behind the bytes that it holds.
    fn filled(self, data: &[u8]) -> [u8; 64]
        requires { self.count % 64 + length «data».now ≤ 64 }
        ensures { result ≡ take (self.count % 64) self.block ++ («data».now ++ drop (self.count % 64 + length «data».now) self.block) }
    {
        let held = (self.count % 64) as usize;
        let end = held + data.len();
        let mut block = self.block;
        lists::copy(data, &mut block[held..end]);
        block
    }

    // Absorbs what does not complete the block.
    fn hold(self, data: &[u8]) -> Sha256
        requires data_bound { self.count + length «data».now ≤ limit }
        requires data_bound_2 { self.count % 64 + length «data».now < 64 }
        ensures { result ≡ absorb self «data».now }
    {
        let words = self.words;
        let count = self.count + data.len() as u64;
        let block = self.filled(data);
        Sha256 {
            words,
            block,
            count,
        }
    }

    // Absorbs just what completes the block.
    fn complete(self, data: &[u8]) -> Sha256
        requires data_bound { self.count + length «data».now ≤ limit }
        requires data_value { self.count % 64 + length «data».now ≡ 64 }
        ensures { result ≡ absorb self «data».now }
    {
        let count = self.count + data.len() as u64;
        let block = self.filled(data);
        let words = all_blocks(self.words, &block);
        Sha256 {
            words,
            block: [0u8; 64],
            count,
        }
    }

    // Absorbs data where the block holds nothing: whole blocks from where they stand in data, and
    // then what is left.
    fn straight(self, data: &[u8]) -> Sha256
        requires data_bound { self.count + length «data».now ≤ limit }
        requires count_value { self.count % 64 ≡ 0 }
        ensures { result ≡ absorb self «data».now }
    {
        if data.len() < 64 {
            return self.hold(data);
        }
        let whole = data.len() - data.len() % 64;
        let words = all_blocks(self.words, &data[..whole]);
        let next = Sha256 {
            words,
            block: [0u8; 64],
            count: self.count + whole as u64,
        };
        next.hold(&data[whole..])
    }

    // Absorbs data that completes the block and may go on.
    fn complete_first(self, data: &[u8]) -> Sha256
        requires data_bound { self.count + length «data».now ≤ limit }
        requires bound { 64 ≤ self.count % 64 + length «data».now }
        ensures { result ≡ absorb self «data».now }
    {
        let held = (self.count % 64) as usize;
        let room = 64 - held;
        let next = self.complete(&data[..room]);
        next.straight(&data[room..])
    }

    // The hash after data has come.
    pub fn update(self, data: &[u8]) -> Sha256
        ensures { result ≡ absorb self «data».now }
    {
        let count = self.count;
        if data.len() == 0 {
            return self;
        }
        if LIMIT < count {
            return Sha256::past_limit();
        }
        if LIMIT - count < data.len() as u64 {
            return Sha256::past_limit();
        }
        let held = (count % 64) as usize;
        if held == 0 {
            return self.straight(data);
        }
        if data.len() < 64 - held {
            return self.hold(data);
        }
        self.complete_first(data)
    }

    // The hash value when the padding has come too: one block more, or two where the message's
    // length has no room behind what the block holds. The blocks before it were counted as they were
    // compressed: `count` passes a multiple of 64 there and nowhere else.
    fn padded(self) -> Padded
        requires { self.count ≤ limit }
        ensures words_value { result.words ≡ hash_blocks self.words (parse (take (self.count % 64) self.block ++ padding self.count)) }
        ensures blocks_value { (result.blocks ≡ compressed self) × (result.blocks ≤ 2 ^ 55 + 1) }
    {
        let held = (self.count % 64) as usize;
        let before = self.count / 64;
        let words = self.words;
        let kept = self.block;
        let block = marked(kept, held);
        if held < 56 {
            let last = with_length(block, self.count);
            let value = all_blocks(words, &last);
            return Padded {
                words: value,
                blocks: before + 1,
            };
        }
        let next = all_blocks(words, &block);
        let last = with_length([0u8; 64], self.count);
        let value = all_blocks(next, &last);
        Padded {
            words: value,
            blocks: before + 2,
        }
    }

    // The digest of what was absorbed at the front of the lent output, with the number of blocks that
    // it took: R5 where that was more than the limit, then R1. A caller in another crate does not see
    // how long a block is, so that the number's bound is promised here.
    pub fn finish_counted(self, out: &mut [u8]) -> Result<Reported, Refusal>
        ensures answers { Answers (finished self) out.old (said result) out.new }
        ensures blocks_value { IfOk result (λ r. (r.blocks ≡ compressed self) × (r.blocks ≤ 2 ^ 55 + 1)) }
    {
        if LIMIT < self.count {
            return Err(Refusal::BadValue);
        }
        let last = self.padded();
        let words = last.words;
        let bytes = concatenation(words);
        let len = refusal::put(&bytes, out)?;
        Ok(Reported {
            len,
            blocks: last.blocks,
        })
    }

    // The same without the number.
    pub fn finish(self, out: &mut [u8]) -> Result<usize, Refusal>
        ensures { Answers (finished self) out.old result out.new }
    {
        let done = self.finish_counted(out)?;
        Ok(done.len)
    }
}

// The SHA-256 digest of a message at the front of the lent output: R5 where the message is longer
// than the limit, then R1.
pub fn hash(message: &[u8], out: &mut [u8]) -> Result<usize, Refusal>
    ensures { Answers (sha256 message.now) out.old result out.new }
{
    Sha256::new().update(message).finish(out)
}

// A block's first bytes, the byte 80 behind them, and zeros.
fn marked(block: [u8; 64], held: usize) -> [u8; 64]
    requires { held < 64 }
    ensures { result ≡ take held block ++ (0x80 ∷ replicate (63 - held) 0) }
{
    let mut last = [0u8; 64];
    lists::copy(&block[..held], &mut last);
    last[held] = 0x80;
    last
}

// A block with the length in bits of a message of count bytes in its last eight bytes.
fn with_length(block: [u8; 64], count: u64) -> [u8; 64]
    requires { count ≤ limit }
    ensures { result ≡ take 56 block ++ be 8 (8 * count) }
{
    let bits = endian::bytes::<8>(8 * count);
    let mut last = block;
    lists::copy(&bits, &mut last[56..64]);
    last
}

// A digest with a word's four bytes at a place.
fn with_word(digest: [u8; 32], at: usize, word: u32) -> [u8; 32]
    requires { at + 4 ≤ 32 }
    ensures { result ≡ take at digest ++ (be 4 word ++ drop (at + 4) digest) }
{
    let bytes = endian::bytes::<4>(u64::from(word));
    let mut next = digest;
    lists::copy(&bytes, &mut next[at..at + 4]);
    next
}

// The eight words one after the other.
#[tactic(auto, unfolding(crate::specs::Hash::concatenated))]
fn concatenation(h: Words) -> [u8; 32]
    ensures { result ≡ concatenated h }
{
    let a = with_word([0u8; 32], 0, h.a);
    let b = with_word(a, 4, h.b);
    let c = with_word(b, 8, h.c);
    let d = with_word(c, 12, h.d);
    let e = with_word(d, 16, h.e);
    let f = with_word(e, 20, h.f);
    let g = with_word(f, 24, h.g);
    with_word(g, 28, h.h)
}
