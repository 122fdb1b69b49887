// A ServerKeyExchange, whose hint is ignored, and a ServerHelloDone, which is answered with ClientKeyExchange
// and Finished.
ghost use Rattle.std.specs.Prelude.{◌≡◌, [], ◌∷◌, ◌+◌, ◌≤◌, length, take};
ghost use Rattle.layout.specs.Layout.{bytes};
ghost use Rattle.layout.specs.Place.{last_at, filled_by, contents};
ghost use Rattle.messages.specs.KeyExchange.{client_key_exchange};
ghost use Rattle.messages.specs.Fixed as Fixed;
ghost use Rattle.keys.specs.declared.Side.TheVariants.{Client};
ghost use Rattle.keys.specs.Secrets.{finished_of};
ghost use Rattle.handshake.specs.Decision.{Decides};
ghost use Rattle.handshake.specs.Outgoing.{Sends};
ghost use Rattle.client.specs.Connection.{identity_of};
ghost use Rattle.client.specs.Exchange as Exchange;
ghost use Rattle.client.specs.Exchange.{after_hint, hint_step, blocks_under, done_step};
ghost use Rattle.client.specs.Inner.{after_done_with};

use crate::{Connection, Phase, Secrets, Setup};
use handshake::{Decision, Outgoing};
use keys::Side;
use layout::put;
use refusal::Refusal;

// ---- the hint

// The connection when the ServerKeyExchange has come.
fn after_hint(c: Connection, m: &[u8]) -> Connection
    ensures { result ≡ after_hint c m.now }
{
    let setup = c.setup;
    let server = c.server;
    let secrets = c.secrets;
    let transcript = transcript::with_message(c.transcript, m);
    Connection {
        phase: Phase::Done,
        setup,
        server,
        secrets,
        transcript,
    }
}

// A ServerKeyExchange whose header is tested already.
pub(crate) fn hint(c: Connection, m: &[u8]) -> Result<Decision<Connection>, Refusal>
    ensures { Decides result (hint_step c m.now (contents m.now (last_at 2 m.now 4))) 0 }
{
    if messages::key_exchange::read_hint_body(m).is_none() {
        return Err(Refusal::DecodeError);
    }
    Ok(handshake::silent(after_hint(c, m), 0))
}

// ---- the answer

// The ClientKeyExchange at the front of an array, and its length.
fn put_exchange(setup: Setup, out: &mut [u8; 134]) -> usize
    ensures { (result ≤ 134) × (result ≡ 6 + length (identity_of setup)) × (take result out.new ≡ bytes client_key_exchange (identity_of setup)) }
{
    let field = setup.identity;
    let identity = lists::front(&field, usize::from(setup.identity_length));
    let _ = messages::key_exchange::write_identity(identity, out);
    6 + identity.len()
}

// The Finished.
fn finished(value: &[u8; 12]) -> [u8; 16]
    ensures { result ≡ bytes Fixed.finished value.now }
{
    let mut message = [0u8; 16];
    let _ = messages::fixed::write_finished(value, &mut message);
    message
}

// A message before the client's change of cipher and one behind it.
fn two(first: &[u8], second: &[u8; 16]) -> Outgoing
    requires { (1 ≤ length first.now) × (length first.now ≤ 134) }
    ensures { Sends result (record { plain = first.now ∷ []; protected = second.now ∷ [] }) }
{
    let mut bytes = [0u8; 180];
    let _ = put::two(first, second, &mut bytes);
    Outgoing {
        bytes,
        lengths: [first.len(), 16, 0],
        plain: 1,
    }
}

// The connection when the answer has been made, whose transcript ends with the client's Finished.
fn after_done(c: Connection, master: [u8; 48], transcript: sha256::Sha256) -> Connection
    ensures { result ≡ after_done_with c master transcript }
{
    let setup = c.setup;
    let server = c.server;
    Connection {
        phase: Phase::Change,
        setup,
        server,
        secrets: Secrets { master },
        transcript,
    }
}

// The answer under this master secret, for which so many blocks were hashed.
fn answer(
    c: Connection,
    m: &[u8],
    master: [u8; 48],
    blocks: u64,
) -> Result<Decision<Connection>, Refusal>
    ensures { Decides result
        (Exchange.finished_with c m.now master (finished_of Client master (Exchange.before_finished c m.now))) blocks }
{
    let mut exchange = [0u8; 134];
    let n = put_exchange(c.setup, &mut exchange);
    let with_done = transcript::with_message(c.transcript, m);
    let before = transcript::with_message(with_done, &exchange[..n]);
    let mut value = [0u8; 12];
    match keys::finished_of(Side::Client, &master, before, &mut value) {
        Ok(_) => {
            let message = finished(&value);
            let outgoing = two(&exchange[..n], &message);
            let next = after_done(c, master, transcript::with_message(before, &message));
            Ok(Decision {
                outgoing,
                next,
                blocks,
            })
        }
        Err(_) => Err(Refusal::DecryptError),
    }
}

// The answer under the master secret of the connection's key.
fn exchanged(c: Connection, m: &[u8]) -> Result<Decision<Connection>, Refusal>
    ensures { Decides result (Exchange.exchanged c m.now) (blocks_under c) }
{
    let setup = c.setup;
    let server = c.server;
    let field = setup.key;
    let key = lists::front(&field, usize::from(setup.key_length));
    let own = setup.random;
    let random = server.random;
    let mut master = [0u8; 48];
    match keys::master_under(key, &own, &random, &mut master) {
        Ok(told) => answer(c, m, master, told.blocks),
        Err(_) => Err(Refusal::DecryptError),
    }
}

// A ServerHelloDone whose header is tested already.
pub(crate) fn done(c: Connection, m: &[u8]) -> Result<Decision<Connection>, Refusal>
    ensures { Decides result (done_step c m.now (contents m.now (filled_by 0 m.now))) (blocks_under c) }
{
    if messages::fixed::read_done_body(m).is_none() {
        return Err(Refusal::DecodeError);
    }
    exchanged(c, m)
}
