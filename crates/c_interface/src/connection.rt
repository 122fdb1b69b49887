// The server's calls, on a connection that the host keeps as 388 bytes. Cleared bytes, and
// those whose first three name no phase, rule or flag, stand for a closed connection. An R number
// leaves the bytes as they were, an alert makes them those of a closed connection.
ghost use Rattle.std.specs.Prelude.{◌≡◌, pos};
ghost use Rattle.server.specs.KeyExchange.{view_of};
ghost use Rattle.server.specs.Message.{message_call};
ghost use Rattle.server.specs.Change.{change_call};
ghost use Rattle.server.specs.Alert.{alert_call};
ghost use Rattle.saved.specs.Saved.{restored, phase_byte};
ghost use Rattle.c_interface.specs.Connections.{Keeps, Starts, Replies, start_call, named_of};

use crate::code;
use keytable::Table;
use refusal::Refusal;
use server::Rule;

// The rule of a number below 3.
pub(crate) fn named(rule: u8) -> Option<Rule>
    ensures { result ≡ named_of rule }
{
    match rule {
        0 => None,
        1 => Some(Rule::Tell),
        _ => Some(Rule::Hide),
    }
}

// A new connection; rule 0 names none, 1 is tell, 2 hide, and R3 any other.
pub fn tn_start(
    connection: &mut [u8; 388],
    random: &[u8],
    hint: &[u8],
    stand_in: &[u8],
    rule: u8,
) -> i32
    ensures { Starts (start_call random.now hint.now stand_in.now rule) connection.old result connection.new }
{
    if 2 < rule {
        return code::of_refusal(Refusal::BadSetting);
    }
    let answer = server::start(random, hint, stand_in, named(rule));
    code::keep(answer.said, &saved::save(answer.next), connection)
}

// A handshake message. The master secret, and how many blocks were hashed for it, are written where a
// ClientKeyExchange was accepted, and the answer is 0 there and nowhere else.
pub fn tn_message(
    connection: &mut [u8; 388],
    table: &[u8],
    starts: &[u32],
    count: usize,
    message: &[u8],
    out: &mut [u8],
    master: &mut [u8; 48],
    blocks: &mut u64,
) -> i32
    ensures keeps { Keeps (message_call (view_of table.now starts.now count) (restored connection.old) message.now out.old)
        connection.old result connection.new }
    ensures replies { Replies (view_of table.now starts.now count) (restored connection.old) message.now
        out.old out.new master.old master.new blocks.old blocks.new }
{
    let bytes = *connection;
    let table = Table {
        bytes: table,
        starts,
        count,
    };
    let reply = server::message(saved::restore(bytes), table, message, out);
    if let Some(derived) = reply.handed {
        let secret = derived.master;
        *master = secret;
        *blocks = derived.blocks;
    }
    code::keep(reply.said, &saved::save(reply.next), connection)
}

// A change of cipher.
pub fn tn_change_of_cipher(connection: &mut [u8; 388]) -> i32
    ensures { Keeps (change_call (restored connection.old)) connection.old result connection.new }
{
    let bytes = *connection;
    let answer = server::change_of_cipher(saved::restore(bytes));
    code::keep(answer.said, &saved::save(answer.next), connection)
}

// A received alert.
pub fn tn_alert(connection: &mut [u8; 388], level: u8, description: u8) -> i32
    ensures { Keeps (alert_call (restored connection.old) level description) connection.old result connection.new }
{
    let bytes = *connection;
    let answer = server::alert(saved::restore(bytes), level, description);
    code::keep(answer.said, &saved::save(answer.next), connection)
}

// What the connection awaits: 0 closed, 1 ClientHello, 2 ClientKeyExchange, 3 a change of cipher, 4
// Finished, 5 complete.
pub fn tn_phase(connection: &[u8; 388]) -> i32
    ensures { result ≡ pos (phase_byte (restored connection.now).phase) }
{
    let bytes = *connection;
    saved::phase(saved::restore(bytes)) as i32
}

// The suite that the hello led to: the number 0, which is no suite of ours, before it and when the
// connection is over.
pub fn tn_suite(connection: &[u8; 388]) -> i32
    ensures { result ≡ pos (restored connection.now).client.suite }
{
    let bytes = *connection;
    let c = saved::restore(bytes);
    let client = c.client;
    client.suite as i32
}
