// The calls of a connection: a message, a change of cipher, a received alert.
ghost use Rattle.std.specs.Prelude.{◌≡◌, ◌≤◌, Ok, None};
ghost use Rattle.handshake.specs.Flight.{longest, counted};
ghost use Rattle.handshake.specs.Handed.{derived};
ghost use Rattle.handshake.specs.Header.{header_test, early_test};
ghost use Rattle.server.specs.declared.Phase.{Phase};
ghost use Rattle.handshake.specs.Step.{answered};
ghost use Rattle.server.specs.KeyExchange.{view};
ghost use Rattle.server.specs.Message as Message;
ghost use Rattle.server.specs.Message.{body_step, message_step, message_call, message_reply, handed_over};
ghost use Rattle.server.specs.Change.{after_change, change_call};
ghost use Rattle.server.specs.Alert.{alert_call};
ghost use Rattle.handshake.specs.Decision.{Decides, decided, blocks_in};

use crate::{Answer, Connection, Phase, Reply, ended, finished, hello, key_exchange};
use handshake::{Decision, Derived};
use keytable::Table;
use layout::types;
use refusal::Refusal;

// ---- a message

// The table of what is awaited.
fn awaited_in(phase: Phase) -> Option<u8>
    ensures { result ≡ Message.awaited phase }
{
    match phase {
        Phase::Hello => Some(types::CLIENT_HELLO),
        Phase::KeyExchange => Some(types::CLIENT_KEY_EXCHANGE),
        Phase::Finished => Some(types::FINISHED),
        Phase::Change | Phase::Complete | Phase::Closed => None,
    }
}

// The step of a message whose header is tested already.
fn body(c: Connection, table: Table, m: &[u8]) -> Result<Decision<Connection>, Refusal>
    requires { header_test (Message.awaited c.phase) m.now ≡ Ok tt }
    ensures { Decides result (body_step (view table.entry) c m.now c.phase)
        (Message.blocks_in (view table.entry) c m.now c.phase) }
{
    match c.phase {
        Phase::Hello => hello::body(c, m),
        Phase::KeyExchange => key_exchange::body(c, table, m),
        Phase::Finished => finished::body(c, m),
        Phase::Change | Phase::Complete | Phase::Closed => Err(Refusal::UnexpectedMessage),
    }
}

// What a message comes to, whatever the room, for a caller that has its own way of writing the answer.
pub fn decide(c: Connection, table: Table, m: &[u8]) -> Result<Decision<Connection>, Refusal>
    ensures { Decides result (message_step (view table.entry) c m.now c.phase)
        (Message.blocks_in (view table.entry) c m.now c.phase) }
{
    let phase = c.phase;
    if phase.is_over() {
        return Err(Refusal::ConnectionOver);
    }
    handshake::test_header(awaited_in(phase), m)?;
    body(c, table, m)
}

// The master secret that a decided message hands over: that of a ClientKeyExchange which was accepted.
fn handed(phase: Phase, d: Result<Decision<Connection>, Refusal>) -> Option<Derived>
    ensures { result ≡ derived (handed_over phase (decided d)) (blocks_in d) }
{
    match (phase, d) {
        (Phase::KeyExchange, Ok(d)) => {
            let secrets = d.next.secrets;
            let master = secrets.master;
            Some(Derived {
                master,
                blocks: d.blocks,
            })
        }
        _ => None,
    }
}

// A handshake message. No answer is longer than the longest flight.
pub fn message(c: Connection, table: Table, m: &[u8], out: &mut [u8]) -> Reply<Connection>
    ensures value { (result ≡ message_reply (view table.entry) c m.now out.old)
        × (out.new ≡ (message_call (view table.entry) c m.now out.old).out) }
    ensures said_bound { counted result.said ≤ longest }
{
    let d = decide(c, table, m);
    let handed = handed(c.phase, d);
    let answer = handshake::settle(c, ended(Phase::Closed), d, out);
    Reply {
        said: answer.said,
        handed,
        next: answer.next,
    }
}

// What is judged of a message as soon as the four bytes of its header are in, although the rest may not be.
pub fn judge_header(phase: Phase, header: [u8; 4]) -> Result<(), Refusal>
    ensures { result ≡ early_test (Message.awaited phase) header }
{
    handshake::judge_header(awaited_in(phase), header)
}

// ---- a change of cipher

// The connection when it has come.
fn after_change(c: Connection) -> Connection
    ensures { result ≡ after_change c }
{
    let setup = c.setup;
    let client = c.client;
    let secrets = c.secrets;
    let transcript = c.transcript;
    Connection {
        phase: Phase::Finished,
        setup,
        client,
        secrets,
        transcript,
    }
}

// A change of cipher.
pub fn change_of_cipher(c: Connection) -> Answer<Connection>
    ensures { result ≡ answered (change_call c) }
{
    let r = match c.phase {
        Phase::Change => {
            return Answer {
                said: Ok(0),
                next: after_change(c),
            };
        }
        Phase::Hello | Phase::KeyExchange | Phase::Finished => Refusal::UnexpectedMessage,
        Phase::Complete | Phase::Closed => Refusal::ConnectionOver,
    };
    handshake::refuse(c, ended(Phase::Closed), r)
}

// ---- a received alert

// A received alert.
pub fn alert(c: Connection, level: u8, description: u8) -> Answer<Connection>
    ensures { result ≡ answered (alert_call c level description) }
{
    let closed = ended(Phase::Closed);
    if c.phase.is_over() {
        return handshake::refuse(c, closed, Refusal::ConnectionOver);
    }
    handshake::alert(c, closed, level, description)
}
