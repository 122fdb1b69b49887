// A client's connection as 413 bytes and back, for a host that keeps connections between calls in
// memory of its own. Every 413 bytes stand for a connection: those whose first byte is no phase's
// stand for a closed one, and so does cleared memory.
//
// `save` promises its bytes and also that they stand for the connection that was saved, so that what
// one call wrote is what the next one reads. The second rests on the types of the fields (a suite is
// below 2^16), which a caller in another crate does not see: promised here, it holds for every
// caller.
#![tactic(auto)]

ghost use Rattle.std.specs.Prelude.{◌≡◌};
ghost use Rattle.saved_client.specs.Saved as Saved;
ghost use Rattle.saved_client.specs.Saved.{phase_byte, saved, restored};

use client::{Connection, Negotiated, Phase, Secrets, Setup};

// What a connection awaits, or how it ended, as a byte.
pub fn phase(c: Connection) -> u8
    ensures { result ≡ phase_byte c.phase }
{
    u8::from(c.phase)
}

// What stands before the identity.
fn head(c: &Connection) -> [u8; 5]
    ensures { result ≡ Saved.head c.now }
{
    let suite = c.server.suite.to_be_bytes();
    [
        u8::from(c.phase),
        c.setup.identity_length,
        c.setup.key_length,
        suite[0],
        suite[1],
    ]
}

// A connection as bytes.
pub fn save(c: Connection) -> [u8; 413]
    ensures value { result ≡ saved c }
    ensures result_value { restored result ≡ c }
{
    let head = head(&c);
    let transcript = sha256::saved::save(c.transcript);
    lists::joined::<413>(&[
        &head,
        &c.setup.identity,
        &c.setup.key,
        &c.setup.random,
        &c.server.random,
        &c.secrets.master,
        &transcript,
    ])
}

// What start was given.
fn setup(bytes: &[u8; 413]) -> Setup
    ensures { result ≡ Saved.setup_in bytes.now }
{
    let identity = lists::array_at::<128>(bytes, 5);
    let key = lists::array_at::<64>(bytes, 133);
    let random = lists::array_at::<32>(bytes, 197);
    Setup {
        identity_length: bytes[1],
        identity,
        key_length: bytes[2],
        key,
        random,
    }
}

// What the server said.
fn server(bytes: &[u8; 413]) -> Negotiated
    ensures { result ≡ Saved.server_in bytes.now }
{
    let random = lists::array_at::<32>(bytes, 229);
    let suite = lists::array_at::<2>(bytes, 3);
    Negotiated {
        random,
        suite: u16::from_be_bytes(suite),
    }
}

// The connection that the bytes stand for.
#[tactic(auto, unfolding(crate::specs::Saved::restored))]
pub fn restore(bytes: [u8; 413]) -> Connection
    ensures { result ≡ restored bytes }
{
    let Ok(phase) = Phase::try_from(bytes[0]) else {
        return client::ended(Phase::Closed);
    };
    let setup = setup(&bytes);
    let server = server(&bytes);
    let master = lists::array_at::<48>(&bytes, 261);
    let hash = lists::array_at::<104>(&bytes, 309);
    let transcript = sha256::saved::restore(hash);
    Connection {
        phase,
        setup,
        server,
        secrets: Secrets { master },
        transcript,
    }
}
