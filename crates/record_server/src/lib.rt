// A record connection (document 02, P5): the server's handshake from the bytes off a socket to the bytes for it.
// Two calls, taking a record and sending data, around the server's own steps, which it calls and does not copy.
//
// specs/Connection.antt has the connection, specs/Taking.antt the order of a record's tests and what it comes
// to, specs/Joining.antt what handshake bytes come to, specs/Answering.antt a flight as records, and
// specs/Sending.antt what is sent besides.
#![tactic(auto)]

mod closing;
mod flight;
mod progress;
mod sending;
mod starting;
mod taking;

pub use closing::{alert, close};
pub use handshake::Answer;
use handshake::Derived;
use records::State;
use refusal::Refusal;
pub use sending::send;
use server::Connection;
pub use starting::start;
pub use taking::{application_data, take};

// The MAC keys of the pending states (RFC 5246, section 6.1), from the key exchange to each side's change of cipher.
#[derive(Clone, Copy)]
pub struct Pending {
    pub client: [u8; 32],
    pub server: [u8; 32],
}

// The record of the alert that closed a connection: so many bytes of its field.
#[derive(Clone, Copy)]
pub struct ClosingAlert {
    pub length: u8,
    pub bytes: [u8; 39],
}

// A record connection. Every value gets an answer.
#[derive(Clone, Copy)]
pub struct RecordConnection {
    pub handshake: Connection,
    // The client's direction.
    pub reading: State,
    // The server's direction.
    pub writing: State,
    pub pending: Pending,
    // How many bytes of an unfinished message stand at the front of the memory that is lent beside the connection.
    pub held: u16,
    pub alert: ClosingAlert,
}

// What a record is answered with: how many bytes were written or a refusal, how many bytes of application data it holds
// behind its header if it holds any, the master secret where one is handed over with how many blocks were hashed for it, and the connection.
#[derive(Clone, Copy)]
pub struct Taken {
    pub said: Result<usize, Refusal>,
    pub holds: Option<usize>,
    pub handed: Option<Derived>,
    pub next: RecordConnection,
}
