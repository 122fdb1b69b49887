// Step 4: the client's Finished, judged over every message before it, and the server's.
ghost use Rattle.std.specs.Prelude.{◌≡◌};
ghost use Rattle.layout.specs.Place.{filled_by, contents};
ghost use Rattle.handshake.specs.Outgoing.{Sends};
ghost use Rattle.server.specs.Finished.{finished_flight, finished_value};
ghost use Rattle.server.specs.Inner as Inner;
ghost use Rattle.handshake.specs.Decision.{Decides};

use crate::{Connection, Phase, ended};
use handshake::{Decision, Outgoing};
use keys::Side;
use refusal::Refusal;

// Whether the client's value is right, of a listed identity. All of it is compared, whatever its bytes
// are, before the identity is looked at.
fn right(c: Connection, value: &[u8]) -> bool
    ensures { result ≡ Inner.right_value c value.now }
{
    let secrets = c.secrets;
    let master = secrets.master;
    let client = c.client;
    if !handshake::is_value(value, Side::Client, &master, c.transcript) {
        return false;
    }
    client.listed
}

// The server's Finished.
fn answer(value: &[u8; 12]) -> Outgoing
    ensures { Sends result (finished_flight value.now) }
{
    let mut bytes = [0u8; 180];
    let _ = messages::fixed::write_finished(value, &mut bytes);
    Outgoing {
        bytes,
        lengths: [16, 0, 0],
        plain: 0,
    }
}

// The server's Finished, to a client's that was right.
fn complete(c: Connection, m: &[u8]) -> Result<Decision<Connection>, Refusal>
    ensures { Decides result (Inner.completion c m.now) 0 }
{
    let secrets = c.secrets;
    let master = secrets.master;
    let transcript = transcript::with_message(c.transcript, m);
    let mut value = [0u8; 12];
    match keys::finished_of(Side::Server, &master, transcript, &mut value) {
        Ok(_) => Ok(Decision {
            outgoing: answer(&value),
            next: ended(Phase::Complete),
            blocks: 0,
        }),
        Err(_) => Err(Refusal::DecryptError),
    }
}

// A Finished whose header is tested already.
pub(crate) fn body(c: Connection, m: &[u8]) -> Result<Decision<Connection>, Refusal>
    ensures { Decides result (finished_value c m.now (contents m.now (filled_by 12 m.now))) 0 }
{
    let value = messages::fixed::read_finished_body(m).ok_or(Refusal::DecodeError)?;
    if !right(c, value.of(m)) {
        return Err(Refusal::DecryptError);
    }
    complete(c, m)
}
