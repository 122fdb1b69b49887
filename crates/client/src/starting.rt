// Start: the ClientHello and a connection from what the host gives it, or R3, or R1.
ghost use Rattle.std.specs.Prelude.{◌≡◌, ◌≤◌, length};
ghost use Rattle.client.specs.Connection as Conn;
ghost use Rattle.client.specs.Connection.{setup_of, begun, start_call};
ghost use Rattle.handshake.specs.Step.{answered};

use crate::{Answer, Connection, Phase, Secrets, Setup, ended, nothing_said};
use refusal::Refusal;
use sha256::Sha256;

// TLS 1.2.
const VERSION: usize = 0x0303;

// Our suites, two bytes each, in the order in which we would have them.
const OFFERED: [u8; 6] = [0x00, 0xae, 0x00, 0x8c, 0x00, 0xb0];

// Whether a connection can be started with these.
fn acceptable(random: &[u8], identity: &[u8], key: &[u8]) -> bool
    ensures { result ≡ Conn.acceptable (record { random = random.now; identity = identity.now; key = key.now }) }
{
    if random.len() != 32 {
        return false;
    }
    if !keytable::valid_identity(identity) {
        return false;
    }
    keytable::valid_secret(key)
}

// The ClientHello.
fn hello(random: &[u8]) -> [u8; 49]
    requires { length random.now ≡ 32 }
    ensures { result ≡ Conn.hello random.now }
{
    let none = &random[0..0];
    let suites = OFFERED;
    let methods = [0u8];
    let mut bytes = [0u8; 49];
    let _ = hellos::client_hello::write(VERSION, random, none, &suites, &methods, None, &mut bytes);
    bytes
}

// What an accepted start was given.
fn setup(random: &[u8], identity: &[u8], key: &[u8]) -> Setup
    requires random_len { length random.now ≡ 32 }
    requires identity_len_bound { length identity.now ≤ 128 }
    requires key_len_bound { length key.now ≤ 64 }
    ensures { result ≡ setup_of (record { random = random.now; identity = identity.now; key = key.now }) }
{
    let named = lists::field::<128>(identity);
    let secret = lists::field::<64>(key);
    let own = lists::field::<32>(random);
    Setup {
        identity_length: identity.len() as u8,
        identity: named,
        key_length: key.len() as u8,
        key: secret,
        random: own,
    }
}

// The connection that has sent this ClientHello.
fn started(setup: Setup, hello: &[u8; 49]) -> Connection
    requires { hello.now ≡ Conn.hello setup.random }
    ensures { result ≡ begun setup }
{
    let server = nothing_said();
    let transcript = transcript::with_message(Sha256::new(), hello);
    Connection {
        phase: Phase::Hello,
        setup,
        server,
        secrets: Secrets { master: [0u8; 48] },
        transcript,
    }
}

// A connection that has a ClientHello to send and awaits the server's, or R3, or R1 where the output is
// shorter than the hello.
pub fn start(random: &[u8], identity: &[u8], key: &[u8], out: &mut [u8]) -> Answer<Connection>
    ensures { (result ≡ answered (start_call (record { random = random.now; identity = identity.now; key = key.now }) out.old))
        × (out.new ≡ (start_call (record { random = random.now; identity = identity.now; key = key.now }) out.old).out) }
{
    if !acceptable(random, identity, key) {
        let next = ended(Phase::Closed);
        return Answer {
            said: Err(Refusal::BadSetting),
            next,
        };
    }
    let hello = hello(random);
    let said = refusal::put(&hello, out);
    match said {
        Ok(_) => {
            let next = started(setup(random, identity, key), &hello);
            Answer { said, next }
        }
        Err(_) => {
            let next = ended(Phase::Closed);
            Answer { said, next }
        }
    }
}
