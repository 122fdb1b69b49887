// The client's calls, on a connection that the host keeps as 413 bytes. Cleared bytes, and those whose
// first names no phase, stand for a closed connection. An R number leaves the bytes as they were, an
// alert makes them those of a closed connection.
ghost use Rattle.std.specs.Prelude.{◌≡◌, pos};
ghost use Rattle.client.specs.Connection.{start_call};
ghost use Rattle.client.specs.Message.{message_call};
ghost use Rattle.client.specs.Change.{change_call};
ghost use Rattle.client.specs.Alert.{alert_call};
ghost use Rattle.saved_client.specs.Saved.{restored, phase_byte};
ghost use Rattle.c_interface.specs.Clients.{Keeps, Starts, Replies};

use crate::code;

// A new connection, and its ClientHello in the output.
pub fn tn_client_start(
    client: &mut [u8; 413],
    random: &[u8],
    identity: &[u8],
    key: &[u8],
    out: &mut [u8],
) -> i32
    ensures starts { Starts (start_call (record { random = random.now; identity = identity.now; key = key.now }) out.old)
        client.old result client.new }
    ensures out_after { out.new ≡ (start_call (record { random = random.now; identity = identity.now; key = key.now }) out.old).out }
{
    let answer = client::start(random, identity, key, out);
    code::keep(answer.said, &saved_client::save(answer.next), client)
}

// A handshake message. The answer to a ServerHelloDone has the ClientKeyExchange, and the Finished in
// its last 16 bytes; the master secret, and how many blocks were hashed for it, are written with that
// answer and with no other.
pub fn tn_client_message(
    client: &mut [u8; 413],
    message: &[u8],
    out: &mut [u8],
    master: &mut [u8; 48],
    blocks: &mut u64,
) -> i32
    ensures keeps { Keeps (message_call (restored client.old) message.now out.old) client.old result client.new }
    ensures replies { Replies (restored client.old) message.now out.old
        out.new master.old master.new blocks.old blocks.new }
{
    let bytes = *client;
    let reply = client::message(saved_client::restore(bytes), message, out);
    if let Some(derived) = reply.handed {
        let secret = derived.master;
        *master = secret;
        *blocks = derived.blocks;
    }
    code::keep(reply.said, &saved_client::save(reply.next), client)
}

// The server's change of cipher.
pub fn tn_client_change_of_cipher(client: &mut [u8; 413]) -> i32
    ensures { Keeps (change_call (restored client.old)) client.old result client.new }
{
    let bytes = *client;
    let answer = client::change_of_cipher(saved_client::restore(bytes));
    code::keep(answer.said, &saved_client::save(answer.next), client)
}

// A received alert.
pub fn tn_client_alert(client: &mut [u8; 413], level: u8, description: u8) -> i32
    ensures { Keeps (alert_call (restored client.old) level description) client.old result client.new }
{
    let bytes = *client;
    let answer = client::alert(saved_client::restore(bytes), level, description);
    code::keep(answer.said, &saved_client::save(answer.next), client)
}

// What the connection awaits: 0 closed, 1 ServerHello, 2 ServerKeyExchange or ServerHelloDone, 3
// ServerHelloDone, 4 a change of cipher, 5 Finished, 6 complete.
pub fn tn_client_phase(client: &[u8; 413]) -> i32
    ensures { result ≡ pos (phase_byte (restored client.now).phase) }
{
    let bytes = *client;
    saved_client::phase(saved_client::restore(bytes)) as i32
}

// The suite that the server chose: the number 0, which is no suite of ours, before its hello and when
// the connection is over.
pub fn tn_client_suite(client: &[u8; 413]) -> i32
    ensures { result ≡ pos (restored client.now).server.suite }
{
    let bytes = *client;
    let c = saved_client::restore(bytes);
    let server = c.server;
    server.suite as i32
}
