// Step 2: a ClientKeyExchange, and the master secret from the key of the identity that it names.
ghost use Rattle.std.specs.Prelude.{◌≡◌, ◌≤◌, length, true, Ok};
ghost use Rattle.layout.specs.Header.{header};
ghost use Rattle.layout.specs.Place.{last_at, contents};
ghost use Rattle.refusal.specs.Lent.{bytes_of};
ghost use Rattle.keys.specs.Secrets.{master_under};
ghost use Rattle.handshake.specs.Flight.{silence};
ghost use Rattle.handshake.specs.Step as Step;
ghost use Rattle.keytable.specs.Starts.{is_list};
ghost use Rattle.keytable.specs.Table.{key_of};
ghost use Rattle.server.specs.declared.Phase.{Phase};
ghost use Rattle.server.specs.KeyExchange as Exchange;
ghost use Rattle.server.specs.KeyExchange.{key_found, key_identity, view, key_used, blocks_under, identity_blocks};
ghost use Rattle.server.specs.Message.{body_step, blocks_in};
ghost use Rattle.handshake.specs.Decision.{Decides};
ghost use Rattle.server.specs.Inner.{after_keys_with};

use crate::{Connection, Negotiated, Phase, Rule, Secrets};
use handshake::{Decision, Derived};
use keytable::Table;
use refusal::Refusal;

// The master secret under a key. It is made before the connection is put together, so that the two do not stand on
// the stack at a time.
fn master_under(c: Connection, key: &[u8]) -> Derived
    requires { (1 ≤ length key.now) × (length key.now ≤ 64) }
    ensures master_value { result.master ≡ bytes_of (master_under key.now c.client.random c.setup.random) }
    ensures blocks_value { result.blocks ≡ blocks_under c key.now }
{
    let setup = c.setup;
    let said = c.client;
    let own = setup.random;
    let random = said.random;
    let mut master = [0u8; 48];
    let told = keys::master_under(key, &random, &own, &mut master);
    Derived {
        master,
        blocks: told.map_or(0, |told| told.blocks),
    }
}

// The connection when the key exchange has come.
fn after_keys(c: Connection, m: &[u8], master: [u8; 48], listed: bool) -> Connection
    ensures { result ≡ after_keys_with c m.now master listed }
{
    let setup = c.setup;
    let said = c.client;
    let random = said.random;
    let client = Negotiated {
        random,
        suite: said.suite,
        listed,
    };
    let transcript = transcript::with_message(c.transcript, m);
    Connection {
        phase: Phase::Change,
        setup,
        client,
        secrets: Secrets { master },
        transcript,
    }
}

// What the key exchange comes to with a master secret that was derived before: nothing for the client.
fn accept(
    c: Connection,
    m: &[u8],
    derived: Derived,
    listed: bool,
) -> Result<Decision<Connection>, Refusal>
    ensures { Decides result (Step.accept silence (after_keys_with c m.now derived.master listed)) derived.blocks }
{
    let next = after_keys(c, m, derived.master, listed);
    Ok(handshake::silent(next, derived.blocks))
}

// What an identity that isn't listed comes to.
fn unlisted(c: Connection, m: &[u8]) -> Result<Decision<Connection>, Refusal>
    ensures { Decides result (Exchange.unlisted c.setup.rule c m.now) (blocks_under c c.setup.stand_in) }
{
    let setup = c.setup;
    let rule = setup.rule;
    match rule {
        Rule::Tell => Err(Refusal::UnknownPskIdentity),
        Rule::Hide => {
            let stand_in = setup.stand_in;
            accept(c, m, master_under(c, &stand_in), false)
        }
    }
}

// The key of the identity, if the table has it.
fn look_up(
    c: Connection,
    table: Table,
    m: &[u8],
    identity: &[u8],
) -> Result<Decision<Connection>, Refusal>
    requires { is_list table.bytes.now table.starts.now table.count ≡ true }
    ensures { Decides result (key_found c m.now (key_of table.entry.bytes.now identity.now))
        (blocks_under c (key_used c (key_of table.entry.bytes.now identity.now))) }
{
    let mut key = [0u8; 64];
    match table.lookup(identity, &mut key) {
        Ok(n) => accept(c, m, master_under(c, &key[..n]), true),
        Err(_) => unlisted(c, m),
    }
}

// The identity that the message names, of a table and a list that do not refuse.
fn identified(c: Connection, table: Table, m: &[u8]) -> Result<Decision<Connection>, Refusal>
    requires m_value { header 16 m.now ≡ Ok tt }
    requires count_value { is_list table.bytes.now table.starts.now table.count ≡ true }
    ensures { Decides result (key_identity (key_of table.entry.bytes.now) c m.now (contents m.now (last_at 2 m.now 4)))
        (identity_blocks (key_of table.entry.bytes.now) c (contents m.now (last_at 2 m.now 4))) }
{
    if messages::key_exchange::read_identity_body(m).is_none() {
        return Err(Refusal::DecodeError);
    }
    let identity = messages::key_exchange::identity(m);
    look_up(c, table, m, identity)
}

// A key exchange whose header is tested already.
pub(crate) fn body(c: Connection, table: Table, m: &[u8]) -> Result<Decision<Connection>, Refusal>
    requires { header 16 m.now ≡ Ok tt }
    ensures { Decides result (body_step (view table.entry) c m.now Phase.KeyExchange)
        (blocks_in (view table.entry) c m.now Phase.KeyExchange) }
{
    table.judge()?;
    identified(c, table, m)
}
