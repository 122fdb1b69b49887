// Start: a record connection from what the host gives it, or R3; and the two fixed values around it.
ghost use Rattle.std.specs.Prelude.{◌≡◌};
ghost use Rattle.record_server.specs.Connection as Conn;
ghost use Rattle.record_server.specs.Connection.{offered, record_start};

use crate::{Answer, ClosingAlert, Pending, RecordConnection};
use records::protection;
use server::{Connection, Phase, Rule};

// TLS_PSK_WITH_NULL_SHA256 alone.
const SUITES: [u16; 3] = [0x00b0, 0x00b0, 0x00b0];

pub(crate) fn no_alert() -> ClosingAlert
    ensures { result ≡ Conn.no_alert }
{
    ClosingAlert {
        length: 0,
        bytes: [0u8; 39],
    }
}

// A record connection around one of the server's that has taken and sent nothing.
fn around(handshake: Connection, alert: ClosingAlert) -> RecordConnection
    ensures { result ≡ Conn.around handshake alert }
{
    let reading = protection::initial();
    let writing = protection::initial();
    RecordConnection {
        handshake,
        reading,
        writing,
        pending: Pending {
            client: [0u8; 32],
            server: [0u8; 32],
        },
        held: 0,
        alert,
    }
}

// A closed connection, with the record that is left to be sent.
pub(crate) fn closed_with(alert: ClosingAlert) -> RecordConnection
    ensures { result ≡ Conn.closed_with alert }
{
    around(server::ended(Phase::Closed), alert)
}

// A record connection that awaits a ClientHello, or R3.
pub fn start(
    random: &[u8],
    hint: &[u8],
    stand_in: &[u8],
    named: Option<Rule>,
) -> Answer<RecordConnection>
    ensures { result ≡ record_start (record { random = random.now; hint = hint.now; stand_in = stand_in.now; named = named; suites = offered }) }
{
    let begun = server::start_with(random, hint, stand_in, named, SUITES);
    let said = begun.said;
    let handshake = begun.next;
    let next = around(handshake, no_alert());
    Answer { said, next }
}
