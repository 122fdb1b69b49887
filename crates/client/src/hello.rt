// A ServerHello, judged by what was offered.
ghost use Rattle.std.specs.Prelude.{◌≡◌, ◌≤◌, length};
ghost use Rattle.handshake.specs.Decision.{Decides};
ghost use Rattle.handshake.specs.Protocol.{suites};
ghost use Rattle.hellos.specs.Hello.{block_contents};
ghost use Rattle.hellos.specs.ServerHello.{server_body, server_fields};
ghost use Rattle.client.specs.Hello as Hello;
ghost use Rattle.client.specs.Hello.{among, bare, hello_step};
ghost use Rattle.client.specs.Inner.{after_hello_with};

use crate::{Connection, Negotiated, Phase};
use handshake::Decision;
use layout::Part;
use refusal::Refusal;

// TLS 1.2.
const VERSION: usize = 0x0303;

// Whether the suite was offered.
fn offered(suite: usize) -> bool
    ensures { result ≡ among suites suite }
{
    [0x00ae, 0x008c, 0x00b0].contains(&suite)
}

// What another version is refused with.
fn other_version(suite: usize) -> Refusal
    ensures { result ≡ Hello.other_version suite }
{
    if suite == 0x008c {
        return Refusal::ProtocolVersion;
    }
    Refusal::IllegalParameter
}

// Whether there is no extension: the block is absent or empty.
fn no_extension(block: Option<Part>, m: &[u8]) -> bool
    ensures { result ≡ bare (block_contents m.now block) }
{
    block.is_none_or(|part| part.of(m).is_empty())
}

// The connection when the hello has come.
fn after_hello(c: Connection, m: &[u8], suite: u16) -> Connection
    requires { 38 ≤ length m.now }
    ensures { result ≡ after_hello_with c m.now suite }
{
    let setup = c.setup;
    let random = lists::field::<32>(&m[6..38]);
    let secrets = c.secrets;
    let transcript = transcript::with_message(c.transcript, m);
    Connection {
        phase: Phase::KeyExchange,
        setup,
        server: Negotiated { random, suite },
        secrets,
        transcript,
    }
}

// A hello whose header is tested already.
pub(crate) fn body(c: Connection, m: &[u8]) -> Result<Decision<Connection>, Refusal>
    ensures { Decides result (hello_step c m.now (server_fields m.now (server_body m.now))) 0 }
{
    let hello = hellos::server_hello::read_body(m).ok_or(Refusal::DecodeError)?;
    if !offered(hello.suite) {
        return Err(Refusal::IllegalParameter);
    }
    if hello.version != VERSION {
        return Err(other_version(hello.suite));
    }
    if hello.compression != 0 {
        return Err(Refusal::IllegalParameter);
    }
    if !no_extension(hello.block, m) {
        return Err(Refusal::UnsupportedExtension);
    }
    Ok(handshake::silent(after_hello(c, m, hello.suite as u16), 0))
}
