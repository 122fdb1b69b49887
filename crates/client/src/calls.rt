// The calls of a connection: a message, a change of cipher, a received alert.
ghost use Rattle.std.specs.Prelude.{◌≡◌, ◌≤◌};
ghost use Rattle.handshake.specs.Decision.{Decides, blocks_in};
ghost use Rattle.handshake.specs.Flight.{longest, counted};
ghost use Rattle.handshake.specs.Handed.{derived};
ghost use Rattle.handshake.specs.Step.{answered};
ghost use Rattle.client.specs.Message as Message;
ghost use Rattle.client.specs.Message.{brings_hint, body_step, message_step, message_call, handed_over, replied};
ghost use Rattle.client.specs.Change.{after_change, change_call};
ghost use Rattle.client.specs.Alert.{alert_call};

use crate::{Answer, Connection, Phase, Reply, ended, exchange, finished, hello};
use handshake::{Decision, Derived};
use layout::types;
use refusal::Refusal;

// ---- a message

// Whether the message is a ServerKeyExchange by its type.
fn brings_hint(m: &[u8]) -> bool
    ensures { result ≡ brings_hint m.now }
{
    m.first() == Some(&types::SERVER_KEY_EXCHANGE)
}

// The ServerKeyExchange, or the ServerHelloDone that comes in its place.
fn hint_or_done(m: &[u8]) -> Option<u8>
    ensures { result ≡ Message.awaited Phase.KeyExchange m.now }
{
    if brings_hint(m) {
        return Some(types::SERVER_KEY_EXCHANGE);
    }
    Some(types::SERVER_HELLO_DONE)
}

// The table of what is awaited.
fn awaited_in(phase: Phase, m: &[u8]) -> Option<u8>
    ensures { result ≡ Message.awaited phase m.now }
{
    match phase {
        Phase::Hello => Some(types::SERVER_HELLO),
        Phase::KeyExchange => hint_or_done(m),
        Phase::Done => Some(types::SERVER_HELLO_DONE),
        Phase::Finished => Some(types::FINISHED),
        Phase::Change | Phase::Complete | Phase::Closed => None,
    }
}

// The step of a message whose header is tested already.
fn body(c: Connection, m: &[u8]) -> Result<Decision<Connection>, Refusal>
    ensures { Decides result (body_step c m.now c.phase) (Message.blocks_in c m.now c.phase) }
{
    match c.phase {
        Phase::Hello => hello::body(c, m),
        Phase::KeyExchange => {
            if brings_hint(m) {
                return exchange::hint(c, m);
            }
            exchange::done(c, m)
        }
        Phase::Done => exchange::done(c, m),
        Phase::Finished => finished::body(c, m),
        Phase::Change | Phase::Complete | Phase::Closed => Err(Refusal::UnexpectedMessage),
    }
}

// What a message comes to, whatever the room.
fn decide(c: Connection, m: &[u8]) -> Result<Decision<Connection>, Refusal>
    ensures { Decides result (message_step c m.now c.phase) (Message.blocks_in c m.now c.phase) }
{
    let phase = c.phase;
    if phase.is_over() {
        return Err(Refusal::ConnectionOver);
    }
    handshake::test_header(awaited_in(phase, m), m)?;
    body(c, m)
}

// The master secret that an answer hands over, with the number of its blocks: with the answer to ServerHelloDone.
fn handed(said: Result<usize, Refusal>, next: Connection, blocks: u64) -> Option<Derived>
    ensures { result ≡ derived (handed_over said next) blocks }
{
    match (said, next.phase) {
        (Ok(_), Phase::Change) => {
            let secrets = next.secrets;
            let master = secrets.master;
            Some(Derived { master, blocks })
        }
        _ => None,
    }
}

// The number of blocks that a decision reports.
fn blocks_in(d: Result<Decision<Connection>, Refusal>) -> u64
    ensures { result ≡ blocks_in d }
{
    match d {
        Ok(d) => d.blocks,
        Err(_) => 0,
    }
}

// A handshake message. No answer is longer than the longest flight.
pub fn message(c: Connection, m: &[u8], out: &mut [u8]) -> Reply<Connection>
    ensures value { (result ≡ replied c m.now (message_call c m.now out.old))
        × (out.new ≡ (message_call c m.now out.old).out) }
    ensures said_bound { counted result.said ≤ longest }
{
    let d = decide(c, m);
    let answer = handshake::settle(c, ended(Phase::Closed), d, out);
    Reply {
        said: answer.said,
        handed: handed(answer.said, answer.next, blocks_in(d)),
        next: answer.next,
    }
}

// ---- a change of cipher

// The connection when it has come.
fn after_change(c: Connection) -> Connection
    ensures { result ≡ after_change c }
{
    let setup = c.setup;
    let server = c.server;
    let secrets = c.secrets;
    let transcript = c.transcript;
    Connection {
        phase: Phase::Finished,
        setup,
        server,
        secrets,
        transcript,
    }
}

// The server's change of cipher.
pub fn change_of_cipher(c: Connection) -> Answer<Connection>
    ensures { result ≡ answered (change_call c) }
{
    let r = match c.phase {
        Phase::Change => {
            return Answer {
                said: Ok(0),
                next: after_change(c),
            };
        }
        Phase::Hello | Phase::KeyExchange | Phase::Done | Phase::Finished => {
            Refusal::UnexpectedMessage
        }
        Phase::Complete | Phase::Closed => Refusal::ConnectionOver,
    };
    handshake::refuse(c, ended(Phase::Closed), r)
}

// ---- a received alert

// An alert from the server.
pub fn alert(c: Connection, level: u8, description: u8) -> Answer<Connection>
    ensures { result ≡ answered (alert_call c level description) }
{
    let closed = ended(Phase::Closed);
    if c.phase.is_over() {
        return handshake::refuse(c, closed, Refusal::ConnectionOver);
    }
    handshake::alert(c, closed, level, description)
}
