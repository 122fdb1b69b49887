// A record connection as 576 bytes and back, for a host that keeps connections between calls in
// memory of its own. Every 576 bytes stand for a record connection: bytes whose protection is
// neither on nor off stand for a closed one, and so does cleared memory.
//
// `save` promises its bytes and also that they stand for the connection that was saved, so that what
// one call wrote is what the next one reads. The second rests on the types of the fields (a sequence
// number is below 2^64), which a caller in another crate does not see: promised here, it holds for
// every caller.
#![tactic(auto)]

ghost use Rattle.std.specs.Prelude.{◌≡◌, ◌+◌, ◌≤◌};
ghost use Rattle.record_server.specs.Connection.{no_alert, closed_with};
ghost use Rattle.saved_records.specs.Saved as Saved;
ghost use Rattle.saved_records.specs.Saved.{saved, state_in, restored};

use record_server::{ClosingAlert, Pending, RecordConnection};
use records::{State, protection};
use server::Phase;

// A direction's state as bytes.
fn state_bytes(s: &State) -> [u8; 41]
    ensures { result ≡ Saved.state_bytes s.now }
{
    let protected = [u8::from(s.protected)];
    let sequence = s.sequence.to_be_bytes();
    lists::joined::<41>(&[&protected, &sequence, &s.key])
}

// A record connection as bytes.
pub fn save(c: RecordConnection) -> [u8; 576]
    ensures value { result ≡ saved c }
    ensures result_value { restored result ≡ c }
{
    let inner = saved::save(c.handshake);
    let reading = state_bytes(&c.reading);
    let writing = state_bytes(&c.writing);
    let held = c.held.to_be_bytes();
    let alert_length = [c.alert.length];
    lists::joined::<576>(&[
        &inner,
        &reading,
        &writing,
        &c.pending.client,
        &c.pending.server,
        &held,
        &alert_length,
        &c.alert.bytes,
    ])
}

// The state of a direction at its place, if it is one.
fn state_at(bytes: &[u8; 576], at: usize) -> Option<State>
    requires { at + 41 ≤ 576 }
    ensures { result ≡ state_in at bytes.now }
{
    let protected = lists::flag(bytes[at])?;
    let sequence = lists::array_at::<8>(bytes, at + 1);
    let key = lists::array_at::<32>(bytes, at + 9);
    Some(State {
        protected,
        sequence: u64::from_be_bytes(sequence),
        key,
    })
}

// The states of the client's direction and of the server's, if both stand there.
fn states(bytes: &[u8; 576]) -> Option<(State, State)>
    ensures { result ≡ Saved.states bytes.now }
{
    Some((state_at(bytes, 388)?, state_at(bytes, 429)?))
}

// A closed record connection that keeps no alert.
fn closed() -> RecordConnection
    ensures { result ≡ closed_with no_alert }
{
    let handshake = server::ended(Phase::Closed);
    let reading = protection::initial();
    let writing = protection::initial();
    RecordConnection {
        handshake,
        reading,
        writing,
        pending: Pending {
            client: [0u8; 32],
            server: [0u8; 32],
        },
        held: 0,
        alert: ClosingAlert {
            length: 0,
            bytes: [0u8; 39],
        },
    }
}

// The record connection that the bytes stand for.
#[tactic(auto, unfolding(crate::specs::Saved::restored))]
pub fn restore(bytes: [u8; 576]) -> RecordConnection
    ensures { result ≡ restored bytes }
{
    let Some((reading, writing)) = states(&bytes) else {
        return closed();
    };
    let handshake = saved::restore(lists::array_at::<388>(&bytes, 0));
    let client = lists::array_at::<32>(&bytes, 470);
    let server = lists::array_at::<32>(&bytes, 502);
    let held = lists::array_at::<2>(&bytes, 534);
    let alert = lists::array_at::<39>(&bytes, 537);
    RecordConnection {
        handshake,
        reading,
        writing,
        pending: Pending { client, server },
        held: u16::from_be_bytes(held),
        alert: ClosingAlert {
            length: bytes[536],
            bytes: alert,
        },
    }
}
