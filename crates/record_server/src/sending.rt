// Application data to the client.
ghost use Rattle.std.specs.Prelude.{◌≡◌};
ghost use Rattle.handshake.specs.Step.{answered};
ghost use Rattle.record_server.specs.Sending.{send_call, after_sending};
ghost use Rattle.record_server.specs.InnerFlight.{settled_by};

use crate::{Answer, RecordConnection, closing};
use records::{ContentType, protection};
use refusal::Refusal;

// The connection when one more record was sent.
fn after_sending(c: RecordConnection) -> RecordConnection
    ensures { result ≡ after_sending c }
{
    let handshake = c.handshake;
    let reading = c.reading;
    let writing = c.writing;
    let pending = c.pending;
    let alert = c.alert;
    let counted = protection::counted(writing);
    RecordConnection {
        handshake,
        reading,
        writing: counted,
        pending,
        held: c.held,
        alert,
    }
}

// What a call gives back that was to lead to `next`.
pub(crate) fn settle(
    c: RecordConnection,
    next: RecordConnection,
    said: Result<usize, Refusal>,
) -> Answer<RecordConnection>
    ensures { result ≡ settled_by c next said }
{
    match said {
        Ok(_) => Answer { said, next },
        Err(_) => Answer { said, next: c },
    }
}

// Application data in a record: R4, R9, R5 over 16,384 bytes or before completion, R1.
pub fn send(c: RecordConnection, content: &[u8], out: &mut [u8]) -> Answer<RecordConnection>
    ensures { (result ≡ answered (send_call c content.now out.old)) × (out.new ≡ (send_call c content.now out.old).out) }
{
    let handshake = c.handshake;
    let phase = handshake.phase;
    let writing = c.writing;
    match closing::test_over(phase, writing.sequence) {
        Ok(()) => {
            if !closing::is_complete(phase) {
                return settle(c, c, Err(Refusal::BadValue));
            }
            let next = after_sending(c);
            let said = protection::seal(writing, ContentType::ApplicationData, content, out);
            settle(c, next, said)
        }
        Err(r) => settle(c, c, Err(r)),
    }
}
