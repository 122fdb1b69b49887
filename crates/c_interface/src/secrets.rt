// The hash and the secrets, each at the front of the lent output.
ghost use Rattle.std.specs.Prelude.{◌≡◌, pos};
ghost use Rattle.sha256.specs.Hash.{sha256};
ghost use Rattle.keys.specs.Hmac.{hmac};
ghost use Rattle.keys.specs.Secrets as Secrets;
ghost use Rattle.keys.specs.Counts.{master_blocks};
ghost use Rattle.c_interface.specs.Codes.{Codes, CodesCounted};
ghost use Rattle.c_interface.specs.Numbered.{label_of, side_of, prf, finished};

use crate::code;
use keys::{Label, Side};
use refusal::Refusal;

pub fn tn_sha256(message: &[u8], out: &mut [u8]) -> i32
    ensures { Codes (sha256 message.now) out.old result out.new }
{
    code::of_answer(sha256::hash(message, out))
}

pub fn tn_hmac(key: &[u8], message: &[u8], out: &mut [u8]) -> i32
    ensures { Codes (hmac key.now message.now) out.old result out.new }
{
    code::of_answer(keys::hmac(key, message, out))
}

// The label of a number below 4.
fn label_of(number: u8) -> Label
    ensures { result ≡ label_of number }
{
    match number {
        0 => Label::MasterSecret,
        1 => Label::KeyExpansion,
        2 => Label::ClientFinished,
        _ => Label::ServerFinished,
    }
}

// n bytes of the PRF; label 0 is "master secret", 1 "key expansion", 2 "client finished", 3 "server
// finished", and R5 any other.
pub fn tn_prf(secret: &[u8], label: u8, seed: &[u8], n: usize, out: &mut [u8]) -> i32
    ensures { Codes (prf secret.now label seed.now n) out.old result out.new }
{
    if 3 < label {
        return code::of_refusal(Refusal::BadValue);
    }
    code::of_answer(keys::prf(secret, label_of(label), seed, n, out))
}

pub fn tn_premaster(psk: &[u8], out: &mut [u8]) -> i32
    ensures { Codes (Secrets.premaster psk.now) out.old result out.new }
{
    code::of_answer(keys::premaster(psk, out))
}

// The number of blocks that were hashed is written with the master secret.
pub fn tn_master(
    premaster: &[u8],
    client: &[u8],
    server: &[u8],
    out: &mut [u8],
    blocks: &mut u64,
) -> i32
    ensures { CodesCounted (Secrets.master premaster.now client.now server.now)
        (master_blocks premaster.now client.now server.now)
        out.old blocks.old result out.new blocks.new }
{
    match keys::master(premaster, client, server, out) {
        Ok(done) => {
            *blocks = done.blocks;
            code::of_answer(Ok(done.len))
        }
        Err(r) => code::of_refusal(r),
    }
}

pub fn tn_key_block(master: &[u8], server: &[u8], client: &[u8], suite: u16, out: &mut [u8]) -> i32
    ensures { Codes (Secrets.keys master.now server.now client.now suite) out.old result out.new }
{
    code::of_answer(keys::key_block(master, server, client, suite, out))
}

// The bytes of the suite's key block, 0 for a suite that is none of ours.
pub fn tn_key_block_length(suite: u16) -> i32
    ensures { result ≡ pos (Secrets.key_block_length suite) }
{
    code::of_answer(Ok(keys::key_block_length(suite)))
}

// The side of a number below 2.
fn side_of(number: u8) -> Side
    ensures { result ≡ side_of number }
{
    match number {
        0 => Side::Client,
        _ => Side::Server,
    }
}

// The verify data of a side's Finished; side 0 is the client, 1 the server, and R5 any other.
pub fn tn_finished(side: u8, master: &[u8], hash: &[u8], out: &mut [u8]) -> i32
    ensures { Codes (finished side master.now hash.now) out.old result out.new }
{
    if 1 < side {
        return code::of_refusal(Refusal::BadValue);
    }
    code::of_answer(keys::finished(side_of(side), master, hash, out))
}
