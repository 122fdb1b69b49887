// Taking a record: its tests in their order, what is in it, and the one place where lent memory is written.
ghost use Rattle.std.specs.Prelude.{◌≡◌, true, List, ◌++◌, ℕ, ◌≤◌, length, get_or, take, drop, Ok};
ghost use Rattle.lists.specs.Lists.{part};
ghost use Rattle.handshake.specs.Alert.{heard};
ghost use Rattle.handshake.specs.Flight.{counted};
ghost use Rattle.handshake.specs.Outgoing.{total};
ghost use Rattle.server.specs.KeyExchange.{view};
ghost use Rattle.records.specs.Joining.{unfinished, held_in};
ghost use Rattle.record_server.specs.Connection.{keys_of};
ghost use Rattle.record_server.specs.Taking as Taking;
ghost use Rattle.record_server.specs.Taking.{Takes, data_in, taken, settled, take_call, take_step, content_step, content_test, content_decided, opened_step, one_more, changed};
ghost use Rattle.record_server.specs.InnerFlight.{pending_if};
ghost use Rattle.record_server.specs.InnerTaking.{Decides, Holds, Keeps, Progresses, Within, decided, held_by, refused_first, room_for, answered_by};
ghost use Rattle.server.specs.Change.{change_step};
ghost use Rattle.records.specs.Protection.{opened};
ghost use Rattle.records.specs.declared.ContentType.{ContentType};

use crate::progress::{Course, Progress};
use crate::{Pending, RecordConnection, Taken, closing, flight, progress, starting};
use handshake::{Derived, Heard};
use keytable::Table;
use layout::Part;
use records::{ContentType, joining, protection};
use refusal::Refusal;
use server::Connection;

// What goes to the lent memory: so many bytes of the record, from `from` on, at a place of it.
#[derive(Clone, Copy)]
pub struct Put {
    pub at: usize,
    pub from: usize,
    pub len: usize,
}

// What a record comes to that is not refused, whatever the room: the records for the client, and the connection as it is then.
#[derive(Drop)]
pub struct Decided {
    pub records: [u8; 336],
    pub len: usize,
    pub next: RecordConnection,
    pub keep: Option<Put>,
    pub handed: Option<Derived>,
    pub holds: Option<usize>,
}

// ---- decisions

// Nothing for the client, and nothing for the lent memory.
fn silent(next: RecordConnection, holds: Option<usize>) -> Decided
    ensures { (memory held bytes : List ℕ) → Decides (Ok result) memory held bytes (Taking.silently next held holds) }
{
    Decided {
        records: [0u8; 336],
        len: 0,
        next,
        keep: None,
        handed: None,
        holds,
    }
}

// ---- what is in a record

// The connection when one more record was taken.
fn one_more(c: RecordConnection) -> RecordConnection
    ensures { result ≡ one_more c }
{
    let handshake = c.handshake;
    let reading = c.reading;
    let writing = c.writing;
    let pending = c.pending;
    let alert = c.alert;
    let counted = protection::counted(reading);
    RecordConnection {
        handshake,
        reading: counted,
        writing,
        pending,
        held: c.held,
        alert,
    }
}

// A received alert of two bytes.
fn hear(c: RecordConnection, content: &[u8]) -> Result<Decided, Refusal>
    requires { length content.now ≡ 2 }
    ensures { (memory held bytes : List ℕ) → Decides result memory held bytes (Taking.alert_step c held (heard (get_or content.now 0 0) (get_or content.now 1 0))) }
{
    match handshake::hear(content[0], content[1]) {
        Heard::Illegal => Err(Refusal::IllegalParameter),
        Heard::Ends => Ok(silent(starting::closed_with(starting::no_alert()), None)),
        Heard::Ignored => Ok(silent(one_more(c), None)),
    }
}

// The connection when the client's change of cipher has come.
fn after_change(c: RecordConnection, next: Connection) -> RecordConnection
    ensures { result ≡ changed c next }
{
    let pending = c.pending;
    let client = pending.client;
    let server = pending.server;
    let writing = c.writing;
    let alert = c.alert;
    let reading = protection::protected_by(client);
    RecordConnection {
        handshake: next,
        reading,
        writing,
        pending: Pending {
            client: [0u8; 32],
            server,
        },
        held: c.held,
        alert,
    }
}

// A change of cipher.
fn change(c: RecordConnection) -> Result<Decided, Refusal>
    ensures { (memory held bytes : List ℕ) → Decides result memory held bytes (Taking.changed_by c held (change_step c.handshake c.handshake.phase)) }
{
    let handshake = c.handshake;
    let answer = server::change_of_cipher(handshake);
    let next = answer.next;
    answer.said?;
    Ok(silent(after_change(c, next), None))
}

// The MAC keys of both directions, from the key block.
fn keys_of(c: Connection) -> Pending
    ensures { result ≡ keys_of c }
{
    let secrets = c.secrets;
    let setup = c.setup;
    let said = c.client;
    let master = secrets.master;
    let own = setup.random;
    let random = said.random;
    let mut block = [0u8; 64];
    let _ = keys::key_block(&master, &own, &random, 0x00b0, &mut block);
    let mut client = [0u8; 32];
    let mut server = [0u8; 32];
    lists::copy(&block[..32], &mut client);
    lists::copy(&block[32..], &mut server);
    Pending { client, server }
}

// The keys of the pending states behind handshake bytes.
fn pending_with(pending: Pending, p: Progress) -> Pending
    ensures { result ≡ Taking.pending_with pending p.connection p.handed }
{
    if p.handed.is_some() {
        return keys_of(p.connection);
    }
    pending
}

// The same when the flight has been sent: the server's key is pending no more behind its change of cipher.
fn pending_after(pending: Pending, changed: bool) -> Pending
    ensures { result ≡ pending_if pending changed }
{
    if changed {
        let client = pending.client;
        return Pending {
            client,
            server: [0u8; 32],
        };
    }
    pending
}

// Handshake bytes that were judged and leave so many bytes of a message unfinished.
fn progressed(c: RecordConnection, p: Progress, keep: Option<Put>, left: usize) -> Decided
    requires { (total p.outgoing.lengths ≤ 180) × (left ≤ 65535) }
    ensures { Progresses c p keep left result }
{
    let reading = c.reading;
    let writing = c.writing;
    let alert = c.alert;
    let waiting = c.pending;
    let pending = pending_with(waiting, p);
    let key = pending.server;
    let connection = p.connection;
    let outgoing = p.outgoing;
    let mut records = [0u8; 336];
    let sent = flight::put_flight(outgoing, writing, key, &mut records);
    let counted = protection::counted(reading);
    let written = sent.writing;
    let next = RecordConnection {
        handshake: connection,
        reading: counted,
        writing: written,
        pending: pending_after(pending, sent.changed),
        held: left as u16,
        alert,
    };
    Decided {
        records,
        len: sent.len,
        next,
        keep,
        handed: p.handed,
        holds: None,
    }
}

// Handshake bytes: n of the record, behind those that the memory holds.
fn shake(
    c: RecordConnection,
    table: Table,
    memory: &[u8],
    kept: usize,
    received: &[u8],
    n: usize,
) -> Result<Decided, Refusal>
    requires { Holds memory.now kept received.now n }
    ensures { Decides result memory.now (take kept memory.now) received.now
        (content_step (view table.entry) c (take kept memory.now) (part 5 n received.now) ContentType.Handshake) }
{
    let handshake = c.handshake;
    let p = progress::judge(handshake, table, &memory[..kept], &received[5..5 + n]);
    let at = p.at;
    match p.course {
        Course::Going => Err(Refusal::UnexpectedMessage),
        Course::Waits => {
            if at < kept {
                let keep = Put {
                    at: kept,
                    from: 5,
                    len: n,
                };
                return Ok(progressed(c, p, Some(keep), kept + n));
            }
            let from = at - kept;
            let keep = Put {
                at: 0,
                from: 5 + from,
                len: n - from,
            };
            Ok(progressed(c, p, Some(keep), n - from))
        }
        Course::Refused(r) => Err(r),
    }
}

// The tests on a change of cipher.
fn test_change(complete: bool, amid: bool, content: &[u8]) -> Result<(), Refusal>
    ensures { result ≡ content_test ContentType.ChangeCipherSpec complete amid content.now }
{
    if complete || amid {
        return Err(Refusal::UnexpectedMessage);
    }
    if lists::same(content, &[1]) {
        return Ok(());
    }
    Err(Refusal::DecodeError)
}

// The tests on what a record holds.
fn test_content(
    kind: ContentType,
    complete: bool,
    amid: bool,
    content: &[u8],
) -> Result<(), Refusal>
    ensures { result ≡ content_test kind complete amid content.now }
{
    match kind {
        ContentType::ApplicationData => {
            if complete {
                return Ok(());
            }
            Err(Refusal::UnexpectedMessage)
        }
        ContentType::Handshake => {
            if content.len() == 0 {
                return Err(Refusal::DecodeError);
            }
            if complete {
                return Err(Refusal::UnexpectedMessage);
            }
            Ok(())
        }
        ContentType::ChangeCipherSpec => test_change(complete, amid, content),
        ContentType::Alert => {
            if content.len() == 2 {
                return Ok(());
            }
            Err(Refusal::DecodeError)
        }
    }
}

// What a record with n bytes of content comes to that met the tests on the record and its MAC.
fn decide_content(
    c: RecordConnection,
    table: Table,
    memory: &[u8],
    kept: usize,
    received: &[u8],
    kind: ContentType,
    n: usize,
) -> Result<Decided, Refusal>
    requires { Holds memory.now kept received.now n }
    ensures { Decides result memory.now (take kept memory.now) received.now
        (content_decided (view table.entry) c (take kept memory.now) (part 5 n received.now) kind) }
{
    let handshake = c.handshake;
    let phase = handshake.phase;
    let complete = closing::is_complete(phase);
    test_content(kind, complete, kept != 0, &received[5..5 + n])?;
    match kind {
        ContentType::ApplicationData => Ok(silent(one_more(c), Some(n))),
        ContentType::Alert => hear(c, &received[5..5 + n]),
        ContentType::ChangeCipherSpec => change(c),
        ContentType::Handshake => shake(c, table, memory, kept, received, n),
    }
}

// Whether this is the first record under the client's protection.
fn is_first(c: RecordConnection) -> bool
    ensures { result ≡ Taking.is_first c }
{
    let reading = c.reading;
    reading.protected && reading.sequence == 0
}

// What a record that is refused is refused with: a bad MAC is 51 in the first one.
fn refused_as(first: bool, r: Refusal) -> Refusal
    ensures { result ≡ refused_first first r }
{
    if first && u8::from(r) == 20 {
        return Refusal::DecryptError;
    }
    r
}

// What a record comes to on a connection that is not closed, under a number that is not the last.
fn decide_opened(
    c: RecordConnection,
    table: Table,
    memory: &[u8],
    kept: usize,
    received: &[u8],
) -> Result<Decided, Refusal>
    requires { (kept ≤ length memory.now) × (kept ≤ 65535) × (unfinished (take kept memory.now) ≡ true) }
    ensures { Decides result memory.now (take kept memory.now) received.now
        (opened_step (view table.entry) c (take kept memory.now) received.now (opened c.reading received.now)) }
{
    let reading = c.reading;
    let handshake = c.handshake;
    let client = handshake.client;
    match protection::open(reading, received) {
        Ok(content) => {
            if is_first(c) && !client.listed {
                return Err(Refusal::DecryptError);
            }
            decide_content(c, table, memory, kept, received, content.kind, content.len)
        }
        Err(r) => Err(refused_as(is_first(c), r)),
    }
}

// What a record comes to, whatever the room.
fn decide(
    c: RecordConnection,
    table: Table,
    memory: &[u8],
    received: &[u8],
) -> Result<Decided, Refusal>
    ensures { Decides result memory.now (held_in memory.now c.held) received.now
        (take_step (view table.entry) c memory.now received.now) }
{
    let handshake = c.handshake;
    let reading = c.reading;
    let phase = handshake.phase;
    closing::test_over(phase, reading.sequence)?;
    let kept = joining::held(memory, c.held as usize);
    decide_opened(c, table, memory, kept, received)
}

// ---- what the call gives back

// A refusal: an alert closes the connection, an R number leaves it as it was.
fn refuse(c: RecordConnection, r: Refusal) -> Taken
    ensures { (out memory : List ℕ) → result ≡ taken (Taking.refused c out memory r) }
{
    let next = closing::after_refusal(c, r);
    Taken {
        said: Err(r),
        holds: None,
        handed: None,
        next,
    }
}

// Whether memory of so many bytes has room for what goes there.
fn has_room(keep: Option<Put>, room: usize) -> bool
    ensures { result ≡ room_for keep room }
{
    match keep {
        None => true,
        Some(put) => {
            if room < put.at {
                return false;
            }
            put.len <= room - put.at
        }
    }
}

// What is to be held goes to the memory, which has room for it.
fn put_held(keep: Option<Put>, received: &[u8], memory: &mut [u8])
    requires within { Within keep memory.old received.now }
    requires memory_value { room_for keep (length memory.old) ≡ true }
    ensures { (held : List ℕ) → held ++ drop (length held) memory.old ≡ memory.old → memory.new ≡ Taking.front (held_by keep memory.old held received.now) memory.old }
{
    if let Some(put) = keep {
        let end = put.from + put.len;
        lists::copy(&received[put.from..end], &mut memory[put.at..]);
    }
}

// What a decision that was accepted is answered with.
fn answered(d: Decided, said: Result<usize, Refusal>) -> Taken
    ensures { result ≡ answered_by d said }
{
    Taken {
        said,
        holds: d.holds,
        handed: d.handed,
        next: d.next,
    }
}

// The answer that a decision comes to: R1 where the output or the memory is too short.
fn settle(
    c: RecordConnection,
    d: Result<Decided, Refusal>,
    received: &[u8],
    memory: &mut [u8],
    out: &mut [u8],
) -> Taken
    requires { Keeps d memory.old received.now }
    ensures { (held : List ℕ) → held ++ drop (length held) memory.old ≡ memory.old
        → Takes (settled c out.old memory.old (decided d memory.old held received.now)) result out.new memory.new }
{
    match d {
        Ok(d) => {
            let keep = d.keep;
            if !has_room(keep, memory.len()) {
                return refuse(c, Refusal::ShortOutput);
            }
            let records = d.records;
            let said = refusal::put(&records[..d.len], out);
            match said {
                Ok(_) => {
                    put_held(keep, received, memory);
                    answered(d, said)
                }
                Err(_) => refuse(c, Refusal::ShortOutput),
            }
        }
        Err(r) => refuse(c, r),
    }
}

// Takes a record. `memory` holds what has come of an unfinished message: the same memory is lent at each call, 16,383 bytes
// of it at least. R4, R9, the record's tests, those on what it holds, R1. No answer is longer than 336 bytes.
pub fn take(
    c: RecordConnection,
    table: Table,
    received: &[u8],
    memory: &mut [u8],
    out: &mut [u8],
) -> Taken
    ensures takes { Takes (take_call (view table.entry) c received.now memory.old out.old)
        result out.new memory.new }
    ensures said_bound { counted result.said ≤ 336 }
{
    let d = decide(c, table, memory, received);
    settle(c, d, received, memory, out)
}

// The application data of a record that was taken, as that part of it; empty where there is none, which `holds` tells
// from data of no bytes.
pub fn application_data(holds: Option<usize>, received: &[u8]) -> &[u8]
    ensures { result.now ≡ data_in holds received.now }
{
    match holds {
        Some(len) => Part { start: 5, len }.of(received),
        None => &[],
    }
}
