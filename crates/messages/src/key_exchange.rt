// ServerKeyExchange and ClientKeyExchange: a body that is one vector with a two-byte length, the
// server's hint or the client's identity.
ghost use Rattle.std.specs.Prelude.{◌≡◌};
ghost use Rattle.refusal.specs.Lent.{Answers};
ghost use Rattle.layout.specs.Types.{server_key_exchange_type, client_key_exchange_type};
ghost use Rattle.layout.specs.Layout.{written};
ghost use Rattle.layout.specs.Place.{last_at};
ghost use Rattle.messages.specs.KeyExchange.{vector_message, server_key_exchange, client_key_exchange, vector_place, identity_in};

use layout::{Part, place, put, types};
use refusal::Refusal;

fn write(kind: u8, contents: &[u8], out: &mut [u8]) -> Result<usize, Refusal>
    ensures { Answers (written (vector_message kind) contents.now) out.old result out.new }
{
    let n = contents.len();
    if 16378 < n {
        return Err(Refusal::BadValue);
    }
    let body = endian::bytes::<3>((n + 2) as u64);
    let size = endian::bytes::<2>(n as u64);
    let head = [kind, body[0], body[1], body[2], size[0], size[1]];
    put::two(&head, contents, out)
}

// Where the hint of a ServerKeyExchange stands.
pub fn read_hint(message: &[u8]) -> Option<Part>
    ensures { result ≡ vector_place server_key_exchange_type message.now }
{
    place::last16_of(types::SERVER_KEY_EXCHANGE, message, 4)
}

// The same of a message whose header is tested already: the tests on the body alone.
pub fn read_hint_body(message: &[u8]) -> Option<Part>
    ensures { result ≡ last_at 2 message.now 4 }
{
    place::last16(message, 4)
}

// A ServerKeyExchange.
pub fn write_hint(hint: &[u8], out: &mut [u8]) -> Result<usize, Refusal>
    ensures { Answers (written server_key_exchange hint.now) out.old result out.new }
{
    write(types::SERVER_KEY_EXCHANGE, hint, out)
}

// Where the identity of a ClientKeyExchange stands; a refusal tells a message that is none from one
// with an empty identity.
pub fn read_identity(message: &[u8]) -> Option<Part>
    ensures { result ≡ vector_place client_key_exchange_type message.now }
{
    place::last16_of(types::CLIENT_KEY_EXCHANGE, message, 4)
}

// The same of a message whose header is tested already: the tests on the body alone.
pub fn read_identity_body(message: &[u8]) -> Option<Part>
    ensures { result ≡ last_at 2 message.now 4 }
{
    place::last16(message, 4)
}

// The identity as that part of the message; of a refused message the empty part.
pub fn identity(message: &[u8]) -> &[u8]
    ensures { result.now ≡ identity_in message.now }
{
    match read_identity(message) {
        Some(part) => part.of(message),
        None => &[],
    }
}

// A ClientKeyExchange.
pub fn write_identity(identity: &[u8], out: &mut [u8]) -> Result<usize, Refusal>
    ensures { Answers (written client_key_exchange identity.now) out.old result out.new }
{
    write(types::CLIENT_KEY_EXCHANGE, identity, out)
}
