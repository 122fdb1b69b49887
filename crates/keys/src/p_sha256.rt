// P_SHA256 (RFC 5246, section 5), with the label hashed before the seed and never copied next to it.
ghost use Rattle.std.specs.Prelude.{◌≡◌, List, ◌++◌, ℕ, ◌+◌, ◌*◌, ◌/◌, ◌≤◌, ◌<◌, length, take};
ghost use Rattle.sha256.specs.State.{absorb};
ghost use Rattle.keys.specs.Prf as Prf;
ghost use Rattle.keys.specs.Prf.{text, expanded};
ghost use Rattle.keys.specs.Counts.{prf_blocks};
ghost use Rattle.keys.specs.declared.mac.Keyed.{Keyed};
ghost use Rattle.keys.specs.Inner.{Keys};

use super::Label;
use super::buffer::append;
use super::mac::{Keyed, end, under};
use sha256::Sha256;

// The hash when the label has come.
fn with_label(hash: Sha256, label: Label) -> Sha256
    ensures { result ≡ absorb hash (text label) }
{
    match label {
        Label::MasterSecret => hash.update(b"master secret"),
        Label::KeyExpansion => hash.update(b"key expansion"),
        Label::ClientFinished => hash.update(b"client finished"),
        Label::ServerFinished => hash.update(b"server finished"),
    }
}

// The hash when what stands in front, the label and the seed have come.
fn labelled(hash: Sha256, front: &[u8], label: Label, seed: &[u8]) -> Sha256
    ensures { result ≡ absorb hash (front.now ++ (text label ++ seed.now)) }
{
    with_label(hash.update(front), label).update(seed)
}

// The hash when A(i) has come: the label and the seed for A(0).
fn with_a(hash: Sha256, label: Label, seed: &[u8], i: usize, a: &[u8; 32]) -> Sha256
    ensures { (secret : List ℕ) → (0 < i → a.now ≡ Prf.a_of secret (text label ++ seed.now) i)
        → result ≡ absorb hash (Prf.a_of secret (text label ++ seed.now) i) }
{
    if i == 0 {
        return labelled(hash, b"", label, seed);
    }
    hash.update(a)
}

// The first n bytes of P_SHA256, at the front of a lent buffer, with the number of blocks that are compressed where every HMAC
// starts afresh. Each HMAC starts from the two hashes of the secret that `keyed` gives.
fn expand_by<F: Fn(&[u8]) -> Keyed>(
    keyed: F,
    secret: &[u8],
    label: Label,
    seed: &[u8],
    n: usize,
    buffer: &mut [u8],
) -> u64
    requires callable { F.pre keyed secret }
    requires keys { (k : Keyed) → F.post keyed secret k → Keys secret.now k }
    requires seed_len_bound { length seed.now ≤ 65536 }
    requires n_bound { (n ≤ 256) × (32 * ((n + 31) / 32) ≤ length buffer.old) }
    ensures buffer_after { take n buffer.new ≡ expanded secret.now (text label ++ seed.now) n }
    ensures value { result ≡ prf_blocks secret.now label seed.now n }
{
    let mut blocks: u64 = 0;
    let mut a = [0u8; 32];
    for i in 0..n.div_ceil(32) {
        let k = keyed(secret);
        let next = end(with_a(k.inner, label, seed, i, &a), k.outer, k.blocks);
        a = next.value;
        let j = keyed(secret);
        let part = end(labelled(j.inner, &a, label, seed), j.outer, j.blocks);
        append(buffer, 32 * i, &part.value);
        blocks += next.blocks + part.blocks;
    }
    blocks
}

// The same from the two hashes of one secret, which are made once.
pub(crate) fn expand(secret: &[u8], label: Label, seed: &[u8], n: usize, buffer: &mut [u8])
    requires secret_len_bound { length secret.now ≤ 65536 }
    requires seed_len_bound { length seed.now ≤ 65536 }
    requires n_bound { (n ≤ 256) × (length buffer.old ≡ 256) }
    ensures { take n buffer.new ≡ expanded secret.now (text label ++ seed.now) n }
{
    let k = under(secret);
    expand_by(|_| k, secret, label, seed, n, buffer);
}

// The same where every HMAC starts afresh from the secret, with the number of blocks that were compressed
// (document 02, P8). A master secret is two parts.
pub(crate) fn expand_afresh(
    secret: &[u8],
    label: Label,
    seed: &[u8],
    n: usize,
    buffer: &mut [u8],
) -> u64
    requires secret_len_bound { length secret.now ≤ 65536 }
    requires seed_len_bound { length seed.now ≤ 65536 }
    requires n_bound { (n ≤ 64) × (length buffer.old ≡ 64) }
    ensures buffer_after { take n buffer.new ≡ expanded secret.now (text label ++ seed.now) n }
    ensures value { result ≡ prf_blocks secret.now label seed.now n }
{
    expand_by(|s| under(s), secret, label, seed, n, buffer)
}
