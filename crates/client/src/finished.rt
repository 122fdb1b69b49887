// The server's Finished, judged over every message, the client's own among them.
ghost use Rattle.layout.specs.Place.{filled_by, contents};
ghost use Rattle.client.specs.Finished.{finished_step};
ghost use Rattle.handshake.specs.Decision.{Decides};

use crate::{Connection, Phase, ended};
use handshake::Decision;
use keys::Side;
use refusal::Refusal;

// A Finished whose header is tested already.
pub(crate) fn body(c: Connection, m: &[u8]) -> Result<Decision<Connection>, Refusal>
    ensures { Decides result (finished_step c (contents m.now (filled_by 12 m.now))) 0 }
{
    let value = messages::fixed::read_finished_body(m).ok_or(Refusal::DecodeError)?;
    let secrets = c.secrets;
    let master = secrets.master;
    if !handshake::is_value(value.of(m), Side::Server, &master, c.transcript) {
        return Err(Refusal::DecryptError);
    }
    Ok(handshake::silent(ended(Phase::Complete), 0))
}
