// Step 1: a ClientHello, and the flight that answers it.
ghost use Rattle.std.specs.Prelude.{◌≡◌, ◌+◌, ◌≤◌, length};
ghost use Rattle.hellos.specs.ClientHello.{client_body, client_fields};
ghost use Rattle.handshake.specs.Flight.{flight_bytes, joined};
ghost use Rattle.handshake.specs.Outgoing.{Sends};
ghost use Rattle.handshake.specs.Step.{accept};
ghost use Rattle.server.specs.Connection.{hint_of};
ghost use Rattle.server.specs.Hello as Hello;
ghost use Rattle.server.specs.Hello.{hint_message, flight, flight_for, hello_fields};
ghost use Rattle.server.specs.Inner as Inner;
ghost use Rattle.handshake.specs.Decision.{Decides};

use crate::{Connection, Negotiated, Phase, Setup};
use handshake::{Decision, Outgoing};
use refusal::Refusal;

// TLS 1.2.
const VERSION: usize = 0x0303;

// Whether the client's list, two bytes a suite, has this one.
fn offers(offered: &[u8], suite: u16) -> bool
    ensures { result ≡ Hello.offers offered.now suite }
{
    let wanted = suite as usize;
    let (suites, _) = offered.as_chunks::<2>();
    suites
        .iter()
        .any(|[high, low]| endian::number16(*high, *low) == wanted)
}

// The first of ours that the client lists.
fn choose(ours: &[u16], offered: &[u8]) -> Option<u16>
    ensures { result ≡ Hello.chosen ours.now offered.now }
{
    ours.iter().copied().find(|suite| offers(offered, *suite))
}

// Whether the null compression method is among these.
fn offers_null(methods: &[u8]) -> bool
    ensures { result ≡ Hello.offers_null methods.now }
{
    methods.contains(&0)
}

// The length of the message that carries the hint, 0 where there is none.
fn hint_message_length(hint: usize) -> usize
    requires { hint ≤ 128 }
    ensures { result ≡ Inner.hint_message_length hint }
{
    if hint == 0 {
        return 0;
    }
    6 + hint
}

// ServerKeyExchange where there is a hint, and ServerHelloDone, in an output that has room for them.
fn put_rest(hint: &[u8], out: &mut [u8])
    requires { (length hint.now ≤ 128) × (length (joined (hint_message hint.now)) + 4 ≤ length out.old) }
    ensures { out.new ≡ Inner.front (Inner.rest_of hint.now) out.old }
{
    if hint.len() == 0 {
        let _ = messages::fixed::write_done(out);
        return;
    }
    let _ = messages::key_exchange::write_hint(hint, out);
    let at = 6 + hint.len();
    let _ = messages::fixed::write_done(&mut out[at..]);
}

// ServerHello, and the rest behind it, in an output that has room for them.
fn put_flight(random: &[u8], hint: &[u8], suite: u16, out: &mut [u8])
    requires { (length random.now ≡ 32) × (length hint.now ≤ 128) × (length (joined (hint_message hint.now)) + 46 ≤ length out.old) }
    ensures { out.new ≡ Inner.front (flight_bytes (flight random.now hint.now suite)) out.old }
{
    let none = &random[0..0];
    let _ = hellos::server_hello::write(VERSION, random, none, suite as usize, 0, None, out);
    put_rest(hint, &mut out[42..]);
}

// The flight to a hello that chose this suite.
fn answer(setup: Setup, suite: u16) -> Outgoing
    ensures { Sends result (flight setup.random (hint_of setup) suite) }
{
    let random = setup.random;
    let field = setup.hint;
    let hint = lists::front(&field, usize::from(setup.hint_length));
    let mut bytes = [0u8; 180];
    put_flight(&random, hint, suite, &mut bytes);
    let lengths = [42, hint_message_length(hint.len()), 4];
    Outgoing {
        bytes,
        lengths,
        plain: 3,
    }
}

// The connection when the hello has been answered with this flight.
fn after_hello(c: Connection, m: &[u8], suite: u16, flight: &[u8]) -> Connection
    requires { 38 ≤ length m.now }
    ensures { result ≡ Inner.after_hello_with c m.now suite flight.now }
{
    let setup = c.setup;
    let random = lists::field::<32>(&m[6..38]);
    let client = Negotiated {
        random,
        suite,
        listed: false,
    };
    let secrets = c.secrets;
    let with_hello = transcript::with_message(c.transcript, m);
    let transcript = transcript::with_message(with_hello, flight);
    Connection {
        phase: Phase::KeyExchange,
        setup,
        client,
        secrets,
        transcript,
    }
}

// A hello that chose this suite.
fn accept(c: Connection, m: &[u8], suite: u16) -> Result<Decision<Connection>, Refusal>
    requires { 38 ≤ length m.now }
    ensures { Decides result (accept (flight_for c suite) (Inner.after_hello_with c m.now suite (flight_bytes (flight_for c suite)))) 0 }
{
    let setup = c.setup;
    let outgoing = answer(setup, suite);
    let bytes = outgoing.bytes;
    let n = handshake::size(outgoing);
    let next = after_hello(c, m, suite, &bytes[..n]);
    Ok(Decision {
        outgoing,
        next,
        blocks: 0,
    })
}

// A hello whose header is tested already.
pub(crate) fn body(c: Connection, m: &[u8]) -> Result<Decision<Connection>, Refusal>
    ensures { Decides result (hello_fields c m.now (client_fields m.now (client_body m.now))) 0 }
{
    let hello = hellos::client_hello::read_body(m).ok_or(Refusal::DecodeError)?;
    if hello.version < VERSION {
        return Err(Refusal::ProtocolVersion);
    }
    if !offers_null(hello.methods.of(m)) {
        return Err(Refusal::IllegalParameter);
    }
    let setup = c.setup;
    let ours = setup.suites;
    let suite = choose(&ours, hello.suites.of(m)).ok_or(Refusal::HandshakeFailure)?;
    accept(c, m, suite)
}
