// A connection as 388 bytes and back, for a host that keeps connections between calls in memory of
// its own. Every 388 bytes stand for a connection: bytes that can't have come from `save`, cleared
// memory among them, stand for a closed one.
//
// `save` promises its bytes and also that they stand for the connection that was saved, so that what
// one call wrote is what the next one reads. The second rests on the types of the fields (a suite is
// below 2^16), which a caller in another crate does not see: promised here, it holds for every
// caller.
#![tactic(auto)]

ghost use Rattle.std.specs.Prelude.{◌≡◌, ◌+◌, ◌≤◌};
ghost use Rattle.endian.specs.Number.{number};
ghost use Rattle.lists.specs.Lists.{part};
ghost use Rattle.saved.specs.Saved as Saved;
ghost use Rattle.saved.specs.Saved.{phase_byte, saved, restored};

use server::{Connection, Negotiated, Phase, Rule, Secrets, Setup};

// What a connection awaits, or how it ended, as a byte.
pub fn phase(c: Connection) -> u8
    ensures { result ≡ phase_byte c.phase }
{
    u8::from(c.phase)
}

// What stands before our suites.
fn head(c: &Connection) -> [u8; 6]
    ensures { result ≡ Saved.head c.now }
{
    let suite = c.client.suite.to_be_bytes();
    [
        u8::from(c.phase),
        u8::from(c.setup.rule),
        u8::from(c.client.listed),
        c.setup.hint_length,
        suite[0],
        suite[1],
    ]
}

// Our suites, two bytes each.
fn pairs(suites: [u16; 3]) -> [u8; 6]
    ensures { result ≡ Saved.pairs suites }
{
    let first = suites[0].to_be_bytes();
    let second = suites[1].to_be_bytes();
    let third = suites[2].to_be_bytes();
    [first[0], first[1], second[0], second[1], third[0], third[1]]
}

// A connection as bytes.
pub fn save(c: Connection) -> [u8; 388]
    ensures value { result ≡ saved c }
    ensures result_value { restored result ≡ c }
{
    let head = head(&c);
    let pairs = pairs(c.setup.suites);
    let transcript = sha256::saved::save(c.transcript);
    lists::joined::<388>(&[
        &head,
        &pairs,
        &c.setup.hint,
        &c.setup.stand_in,
        &c.setup.random,
        &c.client.random,
        &c.secrets.master,
        &transcript,
    ])
}

// The phase, the rule and whether the identity is listed, where the three bytes are those of some.
fn kinds(phase: u8, rule: u8, listed: u8) -> Option<(Phase, Rule, bool)>
    ensures { result ≡ Saved.kinds phase rule listed }
{
    let phase = Phase::try_from(phase).ok()?;
    let rule = Rule::try_from(rule).ok()?;
    Some((phase, rule, lists::flag(listed)?))
}

// The suite at a place.
fn suite(bytes: &[u8; 388], at: usize) -> u16
    requires { at + 2 ≤ 388 }
    ensures { result ≡ number (part at 2 bytes.now) }
{
    u16::from_be_bytes(lists::array_at::<2>(bytes, at))
}

// What start was given.
fn setup(rule: Rule, bytes: &[u8; 388]) -> Setup
    ensures { result ≡ Saved.setup_in rule bytes.now }
{
    let hint = lists::array_at::<128>(bytes, 12);
    let stand_in = lists::array_at::<32>(bytes, 140);
    let random = lists::array_at::<32>(bytes, 172);
    Setup {
        rule,
        suites: [suite(bytes, 6), suite(bytes, 8), suite(bytes, 10)],
        hint_length: bytes[3],
        hint,
        stand_in,
        random,
    }
}

// The connection that the bytes stand for.
#[tactic(auto, unfolding(crate::specs::Saved::restored))]
pub fn restore(bytes: [u8; 388]) -> Connection
    ensures { result ≡ restored bytes }
{
    let Some((phase, rule, listed)) = kinds(bytes[0], bytes[1], bytes[2]) else {
        return server::ended(Phase::Closed);
    };
    let setup = setup(rule, &bytes);
    let random = lists::array_at::<32>(&bytes, 204);
    let client = Negotiated {
        random,
        suite: suite(&bytes, 4),
        listed,
    };
    let master = lists::array_at::<48>(&bytes, 236);
    let hash = lists::array_at::<104>(&bytes, 284);
    let transcript = sha256::saved::restore(hash);
    Connection {
        phase,
        setup,
        client,
        secrets: Secrets { master },
        transcript,
    }
}
