// ServerHello.
ghost use Rattle.std.specs.Prelude.{◌≡◌};
ghost use Rattle.std.specs.Option.{option_copied};
ghost use Rattle.refusal.specs.Lent.{Answers};
ghost use Rattle.layout.specs.Layout.{written};
ghost use Rattle.hellos.specs.ServerHello.{server_hello, server_place, server_body, server_given};

use crate::hello;
use layout::{Part, header, types};
use refusal::Refusal;

// What a ServerHello holds. Its random stands at 6, its session id at 39.
#[derive(Clone, Copy)]
pub struct Server {
    pub version: usize,
    pub session_len: usize,
    pub suite: usize,
    pub compression: u8,
    pub block: Option<Part>,
}

// A message whose header is tested already: the tests on the body alone.
pub fn read_body(message: &[u8]) -> Option<Server>
    ensures { result ≡ server_body message.now }
{
    let session = hello::session_id(message)?;
    let session_len = session.len;
    if message.len() < 42 + session_len {
        return None;
    }
    let block = hello::tail(message, 42 + session_len)?;
    let version = endian::number16(message[4], message[5]);
    let suite = endian::number16(message[39 + session_len], message[40 + session_len]);
    let compression = message[41 + session_len];
    Some(Server {
        version,
        session_len,
        suite,
        compression,
        block,
    })
}

pub fn read(message: &[u8]) -> Option<Server>
    ensures { result ≡ server_place message.now }
{
    header::test(types::SERVER_HELLO, message).ok()?;
    read_body(message)
}

// A ServerHello.
pub fn write(
    version: usize,
    random: &[u8],
    session_id: &[u8],
    suite: usize,
    compression: u8,
    block: Option<&[u8]>,
    out: &mut [u8],
) -> Result<usize, Refusal>
    ensures { Answers (written server_hello (server_given version random.now session_id.now suite compression (option_copied block.entry)))
        out.old result out.new }
{
    if 65535 < suite {
        return Err(Refusal::BadValue);
    }
    let number = endian::bytes::<2>(suite as u64);
    let method = [compression];
    let none = &random[0..0];
    hello::write(
        types::SERVER_HELLO,
        version,
        random,
        session_id,
        &number,
        &method,
        none,
        none,
        block,
        out,
    )
}
