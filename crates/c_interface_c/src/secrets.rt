// What C calls of `c_interface::secrets`, with the same clauses.
ghost use Rattle.std.specs.Prelude.{◌≡◌, pos};
ghost use Rattle.sha256.specs.Hash.{sha256};
ghost use Rattle.keys.specs.Hmac.{hmac};
ghost use Rattle.keys.specs.Secrets as Secrets;
ghost use Rattle.keys.specs.Counts.{master_blocks};
ghost use Rattle.c_interface.specs.Codes.{Codes, CodesCounted};
ghost use Rattle.c_interface.specs.Numbered.{prf, finished};

#[unsafe(no_mangle)]
pub extern "C" fn tn_sha256(message: &[u8], out: &mut [u8]) -> i32
    ensures { Codes (sha256 message.now) out.old result out.new }
{
    c_interface::secrets::tn_sha256(message, out)
}

#[unsafe(no_mangle)]
pub extern "C" fn tn_hmac(key: &[u8], message: &[u8], out: &mut [u8]) -> i32
    ensures { Codes (hmac key.now message.now) out.old result out.new }
{
    c_interface::secrets::tn_hmac(key, message, out)
}

#[unsafe(no_mangle)]
pub extern "C" fn tn_prf(secret: &[u8], label: u8, seed: &[u8], n: usize, out: &mut [u8]) -> i32
    ensures { Codes (prf secret.now label seed.now n) out.old result out.new }
{
    c_interface::secrets::tn_prf(secret, label, seed, n, out)
}

#[unsafe(no_mangle)]
pub extern "C" fn tn_premaster(psk: &[u8], out: &mut [u8]) -> i32
    ensures { Codes (Secrets.premaster psk.now) out.old result out.new }
{
    c_interface::secrets::tn_premaster(psk, out)
}

#[unsafe(no_mangle)]
pub extern "C" fn tn_master(
    premaster: &[u8],
    client: &[u8],
    server: &[u8],
    out: &mut [u8],
    blocks: &mut u64,
) -> i32
    ensures { CodesCounted (Secrets.master premaster.now client.now server.now)
        (master_blocks premaster.now client.now server.now)
        out.old blocks.old result out.new blocks.new }
{
    c_interface::secrets::tn_master(premaster, client, server, out, blocks)
}

#[unsafe(no_mangle)]
pub extern "C" fn tn_key_block(
    master: &[u8],
    server: &[u8],
    client: &[u8],
    suite: u16,
    out: &mut [u8],
) -> i32
    ensures { Codes (Secrets.keys master.now server.now client.now suite) out.old result out.new }
{
    c_interface::secrets::tn_key_block(master, server, client, suite, out)
}

#[unsafe(no_mangle)]
pub extern "C" fn tn_key_block_length(suite: u16) -> i32
    ensures { result ≡ pos (Secrets.key_block_length suite) }
{
    c_interface::secrets::tn_key_block_length(suite)
}

#[unsafe(no_mangle)]
pub extern "C" fn tn_finished(side: u8, master: &[u8], hash: &[u8], out: &mut [u8]) -> i32
    ensures { Codes (finished side master.now hash.now) out.old result out.new }
{
    c_interface::secrets::tn_finished(side, master, hash, out)
}
