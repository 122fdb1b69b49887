// The end of a connection: what a refusal leaves of it, the alert that the host sends then, and close_notify.
ghost use Rattle.std.specs.Prelude.{◌≡◌};
ghost use Rattle.refusal.specs.Lent.{Answers, gives};
ghost use Rattle.record_server.specs.Connection as Conn;
ghost use Rattle.record_server.specs.Connection.{alert_of, after_refusal};
ghost use Rattle.handshake.specs.Step.{answered};
ghost use Rattle.record_server.specs.Sending.{close_call};

use crate::{Answer, ClosingAlert, RecordConnection, sending, starting};
use records::{ContentType, State, protection};
use refusal::Refusal;
use server::Phase;

// Whether a connection is closed.
pub(crate) fn is_closed(phase: Phase) -> bool
    ensures { result ≡ Conn.is_closed phase }
{
    matches!(phase, Phase::Closed)
}

// Whether it is complete.
pub(crate) fn is_complete(phase: Phase) -> bool
    ensures { result ≡ Conn.is_complete phase }
{
    matches!(phase, Phase::Complete)
}

// R4 on a closed connection, R9 under the last sequence number.
pub(crate) fn test_over(phase: Phase, sequence: u64) -> Result<(), Refusal>
    ensures { result ≡ Conn.over_test phase sequence }
{
    if is_closed(phase) {
        return Err(Refusal::ConnectionOver);
    }
    if sequence == protection::LAST {
        return Err(Refusal::SequenceSpent);
    }
    Ok(())
}

// The record of a fatal alert under this state.
fn closing_alert(writing: State, number: u8) -> ClosingAlert
    ensures { result ≡ Conn.closing_alert writing number }
{
    if writing.sequence == protection::LAST {
        return starting::no_alert();
    }
    let mut bytes = [0u8; 39];
    match protection::seal(writing, ContentType::Alert, &[2, number], &mut bytes) {
        Ok(n) => ClosingAlert {
            length: n as u8,
            bytes,
        },
        Err(_) => starting::no_alert(),
    }
}

// The connection after a refusal: an alert closes it, an R number leaves it as it was.
pub(crate) fn after_refusal(c: RecordConnection, r: Refusal) -> RecordConnection
    ensures { result ≡ after_refusal r c }
{
    if r.for_peer() {
        let writing = c.writing;
        return starting::closed_with(closing_alert(writing, u8::from(r)));
    }
    c
}

// The record of the alert that closed the connection, at the front of the lent output; no bytes where there is none to
// be sent.
pub fn alert(c: RecordConnection, out: &mut [u8]) -> Result<usize, Refusal>
    ensures { Answers (gives (alert_of c)) out.old result out.new }
{
    let alert = c.alert;
    let bytes = alert.bytes;
    let n = alert.length as usize;
    if 39 < n {
        return refusal::put(&bytes, out);
    }
    refusal::put(&bytes[..n], out)
}

// A close_notify, and the connection closed: R4, R9, R1.
pub fn close(c: RecordConnection, out: &mut [u8]) -> Answer<RecordConnection>
    ensures { (result ≡ answered (close_call c out.old)) × (out.new ≡ (close_call c out.old).out) }
{
    let handshake = c.handshake;
    let phase = handshake.phase;
    let writing = c.writing;
    match test_over(phase, writing.sequence) {
        Ok(()) => {
            let next = starting::closed_with(starting::no_alert());
            let said = protection::seal(writing, ContentType::Alert, &[1, 0], out);
            sending::settle(c, next, said)
        }
        Err(r) => sending::settle(c, c, Err(r)),
    }
}
