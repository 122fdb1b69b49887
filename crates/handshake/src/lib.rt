// What the two sides of a handshake share: the tests on the header of an awaited message, what a received
// alert comes to, a Finished value judged, the messages that a step has for the peer, and what a call gives back.
//
// A side has its own connection and its own steps. specs/Step.antt says what a call makes of a step, on
// either side: R1 last, and what a refusal does to the connection. `settle` alone writes and changes a connection.
#![tactic(auto)]

ghost use Rattle.std.specs.Prelude.{◌≡◌, [], Ok};
ghost use Rattle.refusal.specs.Lent.{Answers, gives};
ghost use Rattle.keys.specs.Secrets.{finished_of};
ghost use Rattle.handshake.specs.Alert.{heard, heard_step};
ghost use Rattle.handshake.specs.Decision.{Decides, decided};
ghost use Rattle.handshake.specs.Finished.{is_value};
ghost use Rattle.handshake.specs.Flight.{flight_bytes, silence};
ghost use Rattle.handshake.specs.Header.{early_test, header_test};
ghost use Rattle.handshake.specs.Outgoing.{Sends, flight_of, size_of};
ghost use Rattle.handshake.specs.Step as Step;
ghost use Rattle.handshake.specs.Step.{Does, accept, answered, settled};

use keys::Side;
use layout::types;
use refusal::Refusal;
use sha256::Sha256;

// What a received alert comes to: a level that is none, the connection's end, or nothing. Three outcomes, of which none is the
// lack of another, so no Option.
#[derive(Drop)]
pub enum Heard {
    Illegal,
    Ends,
    Ignored,
}

// A master secret, and how many blocks were hashed for it.
#[derive(Clone, Copy)]
pub struct Derived {
    pub master: [u8; 48],
    pub blocks: u64,
}

// What a step comes to that refuses nothing, on either side: messages for the peer, and the connection as it is then.
// `blocks` is how many were hashed for the master secret, where one was derived.
#[derive(Clone, Copy)]
pub struct Decision<C> {
    pub outgoing: Outgoing,
    pub next: C,
    pub blocks: u64,
}

// What a call gives back that hands over nothing but bytes: how many were written or a refusal, and the connection.
#[derive(Drop)]
pub struct Answer<C> {
    pub said: Result<usize, Refusal>,
    pub next: C,
}

// What a message is answered with: how many bytes were written or a refusal, the master secret where
// one is handed over with how many blocks were hashed for it, and the connection.
#[derive(Drop)]
pub struct Reply<C> {
    pub said: Result<usize, Refusal>,
    pub handed: Option<Derived>,
    pub next: C,
}

// Messages for the peer, one behind the other: the longest are a ServerHello of 42 bytes, a
// ServerKeyExchange of 134 and a ServerHelloDone of 4.
#[derive(Clone, Copy)]
pub struct Outgoing {
    pub bytes: [u8; 180],
    // How long each message is; 0 stands for none.
    pub lengths: [usize; 3],
    // How many of these go out before the sender's change of cipher.
    pub plain: usize,
}

// ---- the header of a message

// The tests on a message's header, by the type that is awaited, if one is.
pub fn test_header(awaited: Option<u8>, m: &[u8]) -> Result<(), Refusal>
    ensures { result ≡ header_test awaited m.now }
{
    match awaited {
        Some(kind) => layout::header::test(kind, m),
        None => {
            if m.len() < 4 {
                return Err(Refusal::DecodeError);
            }
            Err(Refusal::UnexpectedMessage)
        }
    }
}

// What is judged of a message as soon as the four bytes of its header are in, although the rest may not be.
pub fn judge_header(awaited: Option<u8>, header: [u8; 4]) -> Result<(), Refusal>
    ensures { result ≡ early_test awaited header }
{
    match awaited {
        Some(kind) => {
            if header[0] != kind {
                return Err(Refusal::UnexpectedMessage);
            }
            if types::MESSAGE_LIMIT - 4 < endian::number24(header[1], header[2], header[3]) {
                return Err(Refusal::DecodeError);
            }
            Ok(())
        }
        None => Err(Refusal::UnexpectedMessage),
    }
}

// ---- a received alert

const WARNING: u8 = 1;

const FATAL: u8 = 2;

const CLOSE_NOTIFY: u8 = 0;

// What an alert of this level and description comes to.
pub fn hear(level: u8, description: u8) -> Heard
    ensures { result ≡ heard level description }
{
    if level == FATAL {
        return Heard::Ends;
    }
    if level != WARNING {
        return Heard::Illegal;
    }
    if description == CLOSE_NOTIFY {
        return Heard::Ends;
    }
    Heard::Ignored
}

// ---- a Finished value

// Whether a value is the side's, under this master secret and over these messages. All of it is compared,
// whatever its bytes are.
pub fn is_value(value: &[u8], side: Side, master: &[u8; 48], transcript: Sha256) -> bool
    ensures { result ≡ is_value value.now (finished_of side master.now transcript) }
{
    let mut expected = [0u8; 12];
    match keys::finished_of(side, master, transcript, &mut expected) {
        Ok(_) => lists::same(value, &expected),
        Err(_) => false,
    }
}

// ---- messages for the peer

// None.
pub fn no_messages() -> Outgoing
    ensures { Sends result silence }
{
    Outgoing {
        bytes: [0u8; 180],
        lengths: [0usize; 3],
        plain: 0,
    }
}

// Nothing for the peer.
pub fn silent<C>(next: C, blocks: u64) -> Decision<C>
    ensures { Decides (Ok result) (accept silence next) blocks }
{
    let outgoing = no_messages();
    Decision {
        outgoing,
        next,
        blocks,
    }
}

// How many bytes all messages are together; the array's, where their lengths say more.
pub fn size(outgoing: Outgoing) -> usize
    ensures { result ≡ size_of outgoing }
{
    let lengths = outgoing.lengths;
    let first = lengths[0];
    if 180 < first {
        return 180;
    }
    let second = lengths[1];
    if 180 - first < second {
        return 180;
    }
    let third = lengths[2];
    if 180 - first - second < third {
        return 180;
    }
    first + second + third
}

// The messages go to the front of the lent output, or R1.
pub fn send(outgoing: Outgoing, out: &mut [u8]) -> Result<usize, Refusal>
    ensures { Answers (gives (flight_bytes (flight_of outgoing))) out.old result out.new }
{
    let bytes = outgoing.bytes;
    let n = size(outgoing);
    refusal::put(&bytes[..n], out)
}

// ---- what a call gives back, by what a closed connection is on that side

// A refusal: an alert closes the connection, an R number leaves it as it was.
pub fn refuse<C: Copy>(c: C, closed: C, r: Refusal) -> Answer<C>
    ensures { result ≡ answered (settled closed c [] (Step.refuse r)) }
{
    let next = if r.for_peer() { closed } else { c };
    Answer { said: Err(r), next }
}

// The answer that a decision comes to: its messages go to the lent output and the next connection is handed back, or R1
// and the connection as it was.
pub fn settle<C: Copy>(
    c: C,
    closed: C,
    d: Result<Decision<C>, Refusal>,
    out: &mut [u8],
) -> Answer<C>
    ensures { Does closed c out.old (decided d) result out.new }
{
    match d {
        Ok(d) => {
            let said = send(d.outgoing, out);
            match said {
                Ok(_) => Answer { said, next: d.next },
                Err(_) => Answer { said, next: c },
            }
        }
        Err(r) => refuse(c, closed, r),
    }
}

// A received alert, where the connection is not over.
pub fn alert<C: Copy>(c: C, closed: C, level: u8, description: u8) -> Answer<C>
    ensures { result ≡ answered (settled closed c [] (heard_step closed c (heard level description))) }
{
    match hear(level, description) {
        Heard::Illegal => refuse(c, closed, Refusal::IllegalParameter),
        Heard::Ends => Answer {
            said: Ok(0),
            next: closed,
        },
        Heard::Ignored => Answer {
            said: Ok(0),
            next: c,
        },
    }
}
