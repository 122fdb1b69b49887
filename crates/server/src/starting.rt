// Start: a connection from what the host gives it, or R3.
ghost use Rattle.std.specs.Prelude.{◌≡◌, ◌≤◌, length};
ghost use Rattle.handshake.specs.Protocol as Protocol;
ghost use Rattle.server.specs.Connection.{setup_of, begun, bad_setting, start_answer};

use crate::{Answer, Connection, Phase, Rule, Secrets, Setup, ended, nothing_said};
use refusal::Refusal;
use sha256::Sha256;

// Our suites, in the order in which we choose.
const SUITES: [u16; 3] = [0x00ae, 0x008c, 0x00b0];

// What an accepted start was given.
fn setup(
    random: [u8; 32],
    hint: &[u8],
    stand_in: [u8; 32],
    named: Option<Rule>,
    suites: [u16; 3],
) -> Setup
    requires { length hint.now ≤ 128 }
    ensures { result ≡ setup_of (record { random = random; hint = hint.now; stand_in = stand_in; named = named; suites = suites }) }
{
    let field = lists::field::<128>(hint);
    Setup {
        rule: named.unwrap_or(Rule::Hide),
        suites,
        hint_length: hint.len() as u8,
        hint: field,
        stand_in,
        random,
    }
}

// The connection that an accepted start gives.
fn started(setup: Setup) -> Connection
    ensures { result ≡ begun setup }
{
    let client = nothing_said();
    let transcript = Sha256::new();
    Connection {
        phase: Phase::Hello,
        setup,
        client,
        secrets: Secrets { master: [0u8; 48] },
        transcript,
    }
}

fn bad_setting() -> Answer<Connection>
    ensures { result ≡ bad_setting }
{
    let next = ended(Phase::Closed);
    Answer {
        said: Err(Refusal::BadSetting),
        next,
    }
}

// A connection that chooses from these suites and awaits a ClientHello, or R3.
pub fn start_with(
    random: &[u8],
    hint: &[u8],
    stand_in: &[u8],
    named: Option<Rule>,
    suites: [u16; 3],
) -> Answer<Connection>
    ensures { result ≡ start_answer (record { random = random.now; hint = hint.now; stand_in = stand_in.now; named = named; suites = suites }) }
{
    let Ok(random) = <[u8; 32]>::try_from(random) else {
        return bad_setting();
    };
    if 128 < hint.len() {
        return bad_setting();
    }
    if !utf8::valid_utf8(hint) {
        return bad_setting();
    }
    let Ok(stand_in) = <[u8; 32]>::try_from(stand_in) else {
        return bad_setting();
    };
    let next = started(setup(random, hint, stand_in, named, suites));
    Answer { said: Ok(0), next }
}

// The same with document 01's three suites.
pub fn start(random: &[u8], hint: &[u8], stand_in: &[u8], named: Option<Rule>) -> Answer<Connection>
    ensures { result ≡ start_answer (record { random = random.now; hint = hint.now; stand_in = stand_in.now; named = named; suites = Protocol.suites }) }
{
    start_with(random, hint, stand_in, named, SUITES)
}
