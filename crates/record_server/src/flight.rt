// A flight as records: each message and the change of cipher in a record of its own.
ghost use Rattle.std.specs.Prelude.{◌≡◌, List, ℕ, ◌+◌, ◌*◌, ◌≤◌, length, take, drop};
ghost use Rattle.handshake.specs.Flight.{counted};
ghost use Rattle.handshake.specs.Outgoing.{total, cut, flight_of};
ghost use Rattle.record_server.specs.Answering.{message_records, counted_over};
ghost use Rattle.record_server.specs.InnerFlight.{Puts, Sends, some_message};

use handshake::Outgoing;
use records::{ContentType, State, protection};
use refusal::Refusal;

// Records that were put at the front of an output: how many bytes they are, how many bytes of messages they hold,
// and the state behind them.
#[derive(Drop)]
pub struct Put {
    pub len: usize,
    pub used: usize,
    pub writing: State,
}

// How many bytes were written, where there was room.
fn count(said: Result<usize, Refusal>) -> usize
    ensures { result ≡ counted said }
{
    match said {
        Ok(n) => n,
        Err(_) => 0,
    }
}

// The messages of these lengths, each in a record of its own; 0 stands for none.
fn put_messages(bytes: &[u8], lengths: &[usize], s: State, out: &mut [u8]) -> Put
    requires { (total lengths.now ≤ length bytes.now) × (total lengths.now ≤ 180) × (total lengths.now + 37 * length lengths.now ≤ length out.old) }
    ensures { Puts (message_records s (cut lengths.now bytes.now)) (counted_over s (cut lengths.now bytes.now))
        (total lengths.now) out.old result out.new }
{
    let mut writing = s;
    let mut len: usize = 0;
    let mut used: usize = 0;
    for n in lengths {
        if *n != 0 {
            let end = used + *n;
            let said = protection::seal(
                writing,
                ContentType::Handshake,
                &bytes[used..end],
                &mut out[len..],
            );
            len = len + count(said);
            used = end;
            writing = protection::counted(writing);
        }
    }
    Put { len, used, writing }
}

// Whether there is a message among these.
fn some_message(lengths: &[usize]) -> bool
    ensures { result ≡ some_message lengths.now }
{
    lengths.iter().any(|n| *n != 0)
}

// How many of the three lengths stand before the change of cipher.
fn plain_of(plain: usize) -> usize
    ensures { (result ≤ 3) × ((ns : List ℕ) → length ns ≡ 3 → (take result ns ≡ take plain ns) × (drop result ns ≡ drop plain ns)) }
{
    plain.min(3)
}

// A flight that was put at the front of an output: how many bytes it is, whether the server's change of cipher is in it,
// and the state behind it.
#[derive(Drop)]
pub struct Sent {
    pub len: usize,
    pub changed: bool,
    pub writing: State,
}

// A flight, with the key for what stands behind the server's change of cipher, in an output that has room for it.
pub(crate) fn put_flight(o: Outgoing, s: State, key: [u8; 32], out: &mut [u8]) -> Sent
    requires { (total o.lengths ≤ 180) × (336 ≤ length out.old) }
    ensures { Sends s key (flight_of o) out.old result out.new }
{
    let bytes = o.bytes;
    let lengths = o.lengths;
    let plain = plain_of(o.plain);
    let first = put_messages(&bytes, &lengths[..plain], s, out);
    let at = first.len;
    let used = first.used;
    let writing = first.writing;
    if !some_message(&lengths[plain..]) {
        return Sent {
            len: at,
            changed: false,
            writing,
        };
    }
    let said = protection::seal(writing, ContentType::ChangeCipherSpec, &[1], &mut out[at..]);
    let behind = at + count(said);
    let state = protection::protected_by(key);
    let rest = put_messages(&bytes[used..], &lengths[plain..], state, &mut out[behind..]);
    let last = rest.writing;
    Sent {
        len: behind + rest.len,
        changed: true,
        writing: last,
    }
}
