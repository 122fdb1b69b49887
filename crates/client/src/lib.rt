// The client's side of the handshake, a gate's own: a connection that goes in and comes back by value.
//
// specs/Connection.antt has the connection and start, specs/Message.antt the order of a message's tests, and
// the files named after the steps (Hello, Exchange, Change, Finished, Alert) what each comes to. A step
// decides and writes nothing; `handshake::settle` makes a call's answer of it.
#![tactic(auto)]

mod bytes;
mod calls;
mod exchange;
mod finished;
mod hello;
mod starting;

ghost use Rattle.std.specs.Prelude.{◌≡◌};
ghost use Rattle.client.specs.Connection as Conn;

pub use calls::{alert, change_of_cipher, message};
pub use handshake::{Answer, Reply};
use sha256::Sha256;
pub use starting::start;

// What a connection awaits, or how it ended.
#[derive(Clone, Copy)]
pub enum Phase {
    Hello,
    // A ServerKeyExchange, or a ServerHelloDone in its place.
    KeyExchange,
    Done,
    Change,
    Finished,
    Complete,
    Closed,
}

impl Phase {
    // Whether a connection is complete or closed.
    pub(crate) fn is_over(self) -> bool
        ensures { result ≡ Conn.is_over self }
    {
        matches!(self, Phase::Complete | Phase::Closed)
    }
}

// What start was given. No call changes it.
#[derive(Clone, Copy)]
pub struct Setup {
    // The identity is so many bytes of its field, and so is the key.
    pub identity_length: u8,
    pub identity: [u8; 128],
    pub key_length: u8,
    pub key: [u8; 64],
    // The client's random.
    pub random: [u8; 32],
}

// What the server said: its random, and the suite that it chose.
#[derive(Clone, Copy)]
pub struct Negotiated {
    pub random: [u8; 32],
    pub suite: u16,
}

#[derive(Clone, Copy)]
pub struct Secrets {
    pub master: [u8; 48],
}

// A connection. `started` and `ended` of specs/Connection.antt are the values that it begins and ends with;
// every other value gets an answer too.
#[derive(Clone, Copy)]
pub struct Connection {
    pub phase: Phase,
    pub setup: Setup,
    pub server: Negotiated,
    pub secrets: Secrets,
    // Every handshake message so far.
    pub transcript: Sha256,
}

// Before the server has said anything.
fn nothing_said() -> Negotiated
    ensures { result ≡ Conn.nothing_said }
{
    Negotiated {
        random: [0u8; 32],
        suite: 0,
    }
}

fn no_setup() -> Setup
    ensures { result ≡ Conn.no_setup }
{
    Setup {
        identity_length: 0,
        identity: [0u8; 128],
        key_length: 0,
        key: [0u8; 64],
        random: [0u8; 32],
    }
}

// The fixed value of a connection that is over; the host also needs the closed one, for memory that holds
// no connection.
pub fn ended(phase: Phase) -> Connection
    ensures { result ≡ Conn.ended phase }
{
    let setup = no_setup();
    let server = nothing_said();
    let transcript = Sha256::new();
    Connection {
        phase,
        setup,
        server,
        secrets: Secrets { master: [0u8; 48] },
        transcript,
    }
}
