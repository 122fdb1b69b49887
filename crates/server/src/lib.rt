// The server's side of the handshake: a connection that goes in and comes back by value.
//
// specs/Connection.antt has the connection and start, specs/Message.antt the order of a message's tests, and
// the files named after the steps (Hello, KeyExchange, Change, Finished, Alert) what each comes to. A step
// decides and writes nothing; `handshake::settle` makes a call's answer of it. What a client does alike is in that
// crate too.
#![tactic(auto)]

mod bytes;
mod calls;
mod finished;
mod hello;
mod key_exchange;
mod starting;

ghost use Rattle.std.specs.Prelude.{◌≡◌};
ghost use Rattle.server.specs.Connection as Conn;

pub use calls::{alert, change_of_cipher, decide, judge_header, message};
pub use handshake::{Answer, Reply};
use sha256::Sha256;
pub use starting::{start, start_with};

// What a connection does where a client names an identity that isn't listed.
#[derive(Clone, Copy)]
pub enum Rule {
    Tell,
    Hide,
}

// What a connection awaits, or how it ended.
#[derive(Clone, Copy)]
pub enum Phase {
    Hello,
    KeyExchange,
    Change,
    Finished,
    Complete,
    Closed,
}

impl Phase {
    // Whether a connection is complete or closed.
    pub(crate) fn is_over(self) -> bool
        ensures { result ≡ Conn.is_over self }
    {
        matches!(self, Phase::Complete | Phase::Closed)
    }
}

// What start was given. No call changes it.
#[derive(Clone, Copy)]
pub struct Setup {
    pub rule: Rule,
    // Our suites, in the order in which we choose.
    pub suites: [u16; 3],
    // The hint is so many bytes of its field.
    pub hint_length: u8,
    pub hint: [u8; 128],
    pub stand_in: [u8; 32],
    // The server's random.
    pub random: [u8; 32],
}

// What the client said: its random, the suite that its hello led to, and whether the identity that it
// named is listed.
#[derive(Clone, Copy)]
pub struct Negotiated {
    pub random: [u8; 32],
    pub suite: u16,
    pub listed: bool,
}

#[derive(Clone, Copy)]
pub struct Secrets {
    pub master: [u8; 48],
}

// A connection. `started` and `ended` of specs/Connection.antt are the values that it begins and ends with;
// every other value gets an answer too.
#[derive(Clone, Copy)]
pub struct Connection {
    pub phase: Phase,
    pub setup: Setup,
    pub client: Negotiated,
    pub secrets: Secrets,
    // Every handshake message so far.
    pub transcript: Sha256,
}

// Before the client has said anything.
fn nothing_said() -> Negotiated
    ensures { result ≡ Conn.nothing_said }
{
    Negotiated {
        random: [0u8; 32],
        suite: 0,
        listed: false,
    }
}

fn no_setup() -> Setup
    ensures { result ≡ Conn.no_setup }
{
    Setup {
        rule: Rule::Tell,
        suites: [0u16; 3],
        hint_length: 0,
        hint: [0u8; 128],
        stand_in: [0u8; 32],
        random: [0u8; 32],
    }
}

// The fixed value of a connection that is over; the host also needs the closed one, for memory that holds
// no connection.
pub fn ended(phase: Phase) -> Connection
    ensures { result ≡ Conn.ended phase }
{
    let setup = no_setup();
    let client = nothing_said();
    let transcript = Sha256::new();
    Connection {
        phase,
        setup,
        client,
        secrets: Secrets { master: [0u8; 48] },
        transcript,
    }
}
