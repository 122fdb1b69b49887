// The secrets of TLS 1.2 with pre-shared keys: HMAC-SHA-256 (RFC 2104), the PRF (RFC 5246, section
// 5), the premaster secret (RFC 4279), the master secret, the key block and the Finished values
// (RFC 5246, sections 8.1, 6.3 and 7.4.9). It sees of the hash only what the hash promises.
#![tactic(auto)]

mod buffer;
mod mac;
mod p_sha256;

ghost use Rattle.refusal.specs.Lent.{Answers};
ghost use Rattle.std.specs.Prelude.{◌≡◌, ◌++◌, ◌+◌, ◌*◌, ◌≤◌, length, take, IfOk};
ghost use Rattle.keys.specs.Hmac as Hmac;
ghost use Rattle.keys.specs.Prf as Prf;
ghost use Rattle.keys.specs.Secrets as Secrets;
ghost use Rattle.sha256.specs.Report.{said};
ghost use Rattle.keys.specs.Counts.{prf_blocks, master_blocks, master_under_blocks};

use buffer::append;
use p_sha256::{expand, expand_afresh};
use refusal::Refusal;
use sha256::{Reported, Sha256};

// The four labels of the PRF. No other can be handed in.
#[derive(Clone, Copy)]
pub enum Label {
    MasterSecret,
    KeyExpansion,
    ClientFinished,
    ServerFinished,
}

// Who sends a Finished message.
#[derive(Drop)]
pub enum Side {
    Client,
    Server,
}

// The label of a side's Finished.
impl From<Side> for Label {
    ghost from_gives = { λ side label. label ≡ Secrets.finished_label side };

    fn from(side: Side) -> Label {
        match side {
            Side::Client => Label::ClientFinished,
            Side::Server => Label::ServerFinished,
        }
    }
}

// The most bytes of a key: what the hash takes, 2^61 - 1.
const KEY_LIMIT: usize = 0x1fff_ffff_ffff_ffff;

// The most bytes of a message: 64 fewer, since the key's block is hashed before it.
const MESSAGE_LIMIT: usize = 0x1fff_ffff_ffff_ffbf;

// HMAC-SHA-256 of a message in two parts, one behind the other, at the front of the lent output: R5 where the
// message or the key is too long, then R1.
pub fn hmac_of_two(
    key: &[u8],
    first: &[u8],
    second: &[u8],
    out: &mut [u8],
) -> Result<usize, Refusal>
    ensures { Answers (Hmac.hmac key.now (first.now ++ second.now)) out.old result out.new }
{
    if MESSAGE_LIMIT < first.len()
        || MESSAGE_LIMIT - first.len() < second.len()
        || KEY_LIMIT < key.len()
    {
        return Err(Refusal::BadValue);
    }
    let k = mac::under(key);
    let begun = k.inner;
    let done = mac::end(begun.update(first).update(second), k.outer, k.blocks);
    let value = done.value;
    refusal::put(&value, out)
}

// The same of a message in one part.
pub fn hmac(key: &[u8], message: &[u8], out: &mut [u8]) -> Result<usize, Refusal>
    ensures { Answers (Hmac.hmac key.now message.now) out.old result out.new }
{
    hmac_of_two(key, b"", message, out)
}

// n bytes of PRF(secret, label, seed) at the front of the lent output: R5 where the secret or the seed
// is longer than 65,536 bytes or n is over 256, then R1.
pub fn prf(
    secret: &[u8],
    label: Label,
    seed: &[u8],
    n: usize,
    out: &mut [u8],
) -> Result<usize, Refusal>
    ensures { Answers (Prf.prf secret.now label seed.now n) out.old result out.new }
{
    if 65536 < secret.len() || 65536 < seed.len() || 256 < n {
        return Err(Refusal::BadValue);
    }
    let mut bytes = [0u8; 256];
    expand(secret, label, seed, n, &mut bytes);
    refusal::put(&bytes[..n], out)
}

// A master secret's 48 bytes of the PRF, with the number of blocks that were compressed, every HMAC starting afresh
// (document 02, P8): R5 as above, then R1.
fn derive(secret: &[u8], label: Label, seed: &[u8], out: &mut [u8]) -> Result<Reported, Refusal>
    ensures answers { Answers (Prf.prf secret.now label seed.now 48) out.old (said result) out.new }
    ensures blocks_value { IfOk result (λ r. r.blocks ≡ prf_blocks secret.now label seed.now 48) }
{
    if 65536 < secret.len() || 65536 < seed.len() {
        return Err(Refusal::BadValue);
    }
    let mut bytes = [0u8; 64];
    let blocks = expand_afresh(secret, label, seed, 48, &mut bytes);
    let len = refusal::put(&bytes[..48], out)?;
    Ok(Reported { len, blocks })
}

// The premaster secret of a PSK of 1 to 64 bytes at the front of the lent output: R5 for another
// length, then R1.
pub fn premaster(psk: &[u8], out: &mut [u8]) -> Result<usize, Refusal>
    ensures { Answers (Secrets.premaster psk.now) out.old result out.new }
{
    let n = psk.len();
    if n < 1 || 64 < n {
        return Err(Refusal::BadValue);
    }
    let bytes = premaster_bytes(psk);
    refusal::put(&bytes[..4 + 2 * n], out)
}

// The master secret, 48 bytes at the front of the lent output, with the number of blocks that were compressed: R5
// where a random is not of 32 bytes or the premaster secret is over 65,536, then R1.
pub fn master(
    premaster: &[u8],
    client: &[u8],
    server: &[u8],
    out: &mut [u8],
) -> Result<Reported, Refusal>
    ensures answers { Answers (Secrets.master premaster.now client.now server.now) out.old (said result) out.new }
    ensures blocks_value { IfOk result (λ r. r.blocks ≡ master_blocks premaster.now client.now server.now) }
{
    if client.len() != 32 || server.len() != 32 {
        return Err(Refusal::BadValue);
    }
    let seed = joined(client, server);
    derive(premaster, Label::MasterSecret, &seed, out)
}

// The master secret under a key, 48 bytes at the front of the lent output, with the number of blocks that were
// compressed: R5 where the key is not of 1 to 64 bytes or a random not of 32, then R1.
pub fn master_under(
    key: &[u8],
    client: &[u8],
    server: &[u8],
    out: &mut [u8],
) -> Result<Reported, Refusal>
    ensures answers { Answers (Secrets.master_under key.now client.now server.now) out.old (said result) out.new }
    ensures blocks_value { IfOk result (λ r. r.blocks ≡ master_under_blocks key.now client.now server.now) }
{
    let mut secret = [0u8; 132];
    let n = premaster(key, &mut secret)?;
    master(&secret[..n], client, server, out)
}

// The bytes that the suite takes of its key block, or 0 for a suite that is none of ours.
pub fn key_block_length(suite: u16) -> usize
    ensures { result ≡ Secrets.key_block_length suite }
{
    match suite {
        0x00ae => 96,
        0x008c => 72,
        0x00b0 => 64,
        _ => 0,
    }
}

// The key block without IVs at the front of the lent output: R5 where the master secret is not of 48
// bytes, a random not of 32 or the suite none of ours, then R1.
pub fn key_block(
    master: &[u8],
    server: &[u8],
    client: &[u8],
    suite: u16,
    out: &mut [u8],
) -> Result<usize, Refusal>
    ensures { Answers (Secrets.keys master.now server.now client.now suite) out.old result out.new }
{
    let n = key_block_length(suite);
    if master.len() != 48 || n < 1 || server.len() != 32 || client.len() != 32 {
        return Err(Refusal::BadValue);
    }
    let seed = joined(server, client);
    prf(master, Label::KeyExpansion, &seed, n, out)
}

// The verify data of a Finished message, 12 bytes at the front of the lent output: R5 where the master
// secret is not of 48 bytes or the handshake hash not of 32, then R1.
pub fn finished(side: Side, master: &[u8], hash: &[u8], out: &mut [u8]) -> Result<usize, Refusal>
    ensures { Answers (Secrets.verify_data side master.now hash.now) out.old result out.new }
{
    if master.len() != 48 || hash.len() != 32 {
        return Err(Refusal::BadValue);
    }
    prf(master, Label::from(side), hash, 12, out)
}

// The same over all messages of a transcript: R5 too past the hash's limit.
pub fn finished_of(
    side: Side,
    master: &[u8],
    transcript: Sha256,
    out: &mut [u8],
) -> Result<usize, Refusal>
    ensures { Answers (Secrets.finished_of side master.now transcript) out.old result out.new }
{
    let mut hash = [0u8; 32];
    transcript::hash_of(transcript, &mut hash)?;
    finished(side, master, &hash, out)
}

// N, N zero bytes, N and the PSK, at the front of a buffer.
fn premaster_bytes(psk: &[u8]) -> [u8; 132]
    requires { length psk.now ≤ 64 }
    ensures { take (4 + 2 * length psk.now) result ≡ Secrets.premaster_bytes psk.now }
{
    let n = psk.len();
    let size = endian::bytes::<2>(n as u64);
    let zeros = [0u8; 64];
    let mut bytes = [0u8; 132];
    append(&mut bytes, 0, &size);
    append(&mut bytes, 2, &zeros[..n]);
    append(&mut bytes, 2 + n, &size);
    append(&mut bytes, 4 + n, psk);
    bytes
}

// Two randoms one after the other.
fn joined(first: &[u8], second: &[u8]) -> [u8; 64]
    requires first_len { length first.now ≡ 32 }
    requires second_len { length second.now ≡ 32 }
    ensures { result ≡ first.now ++ second.now }
{
    let mut both = [0u8; 64];
    append(&mut both, 0, first);
    append(&mut both, 32, second);
    both
}
