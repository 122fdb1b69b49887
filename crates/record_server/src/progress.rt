// Handshake bytes: what is held of a message in lent memory, and the content of a record behind it. Each message that
// they finish goes through the server's step; one that came whole is read where it stands.
ghost use Rattle.std.specs.Prelude.{◌≡◌, ◌⊎◌, true, ◌++◌, ◌+◌, ◌-◌, ◌≤◌, ◌<◌, length, get_or, take, drop, None};
ghost use Rattle.lists.specs.Lists.{part};
ghost use Rattle.handshake.specs.Flight.{silence};
ghost use Rattle.handshake.specs.Outgoing.{flight_of, total};
ghost use Rattle.server.specs.KeyExchange.{view};
ghost use Rattle.server.specs.Message.{message_step, blocks_in};
ghost use Rattle.handshake.specs.Decision as Server;
ghost use Rattle.records.specs.Joining.{unfinished};
ghost use Rattle.record_server.specs.declared.progress.Course.{Course};
ghost use Rattle.record_server.specs.Joining.{judged, where_whole};
ghost use Rattle.record_server.specs.InnerProgress.{Sound, Goes, Ends, progress_of, judge_left, on_course, with_answer, with_master, advanced, is_going};

use crate::closing;
use handshake::{Decision, Derived, Outgoing};
use keytable::Table;
use records::joining;
use refusal::Refusal;
use server::{Connection, Phase};

// Whether there is more to be judged, what is left waits for the rest of a message, or something was refused. A Result of a
// flag would read worse.
#[derive(Clone, Copy)]
pub enum Course {
    Going,
    Waits,
    Refused(Refusal),
}

// How far the bytes have been judged: `at` is where the next message begins.
#[derive(Clone, Copy)]
pub struct Progress {
    pub course: Course,
    pub connection: Connection,
    pub outgoing: Outgoing,
    pub handed: Option<Derived>,
    pub at: usize,
}

// The byte at a place of the held bytes and the content behind them.
fn byte_at(held: &[u8], content: &[u8], i: usize) -> u8
    requires { i < length held.now + length content.now }
    ensures { result ≡ get_or (held.now ++ content.now) i 0 }
{
    if i < held.len() {
        return held[i];
    }
    content[i - held.len()]
}

// The header of the message that begins at `at`.
fn header_at(held: &[u8], content: &[u8], at: usize) -> [u8; 4]
    requires { at + 4 ≤ length held.now + length content.now }
    ensures { result ≡ part at 4 (held.now ++ content.now) }
{
    [
        byte_at(held, content, at),
        byte_at(held, content, at + 1),
        byte_at(held, content, at + 2),
        byte_at(held, content, at + 3),
    ]
}

// The step of the message from `at` to `end`; one that is spread over records is joined in one array.
fn decide_at(
    c: Connection,
    table: Table,
    held: &[u8],
    content: &[u8],
    at: usize,
    end: usize,
) -> Result<Decision<Connection>, Refusal>
    requires at_le_end { (at ≤ end) × (end ≤ length held.now + length content.now) × (end ≤ at + 16384) }
    requires fact { ((at ≡ 0) × (length held.now ≤ end)) ⊎ (length held.now ≤ at) }
    ensures { Server.Decides result (message_step (view table.entry) c (take (end - at) (drop at (held.now ++ content.now))) c.phase)
        (blocks_in (view table.entry) c (take (end - at) (drop at (held.now ++ content.now))) c.phase) }
{
    let kept = held.len();
    if kept <= at {
        return server::decide(c, table, &content[at - kept..end - kept]);
    }
    let mut message = [0u8; 16384];
    lists::copy(held, &mut message);
    lists::copy(&content[..end - kept], &mut message[kept..]);
    server::decide(c, table, &message[..end])
}

// The same progress, on another course.
fn on_course(p: Progress, course: Course) -> Progress
    ensures { result ≡ on_course p course }
{
    Progress { course, ..p }
}

// Behind a message whose step answers; nothing was answered before it.
fn with_answer(p: Progress, d: Decision<Connection>, at: usize) -> Progress
    ensures { result ≡ with_answer p d at }
{
    Progress {
        course: Course::Going,
        connection: d.next,
        outgoing: d.outgoing,
        at,
        ..p
    }
}

// Behind a ClientKeyExchange, which is not answered: its master secret is handed over, with the number of its blocks.
fn with_master(p: Progress, d: Decision<Connection>, at: usize) -> Progress
    ensures { result ≡ with_master p d at }
{
    let secrets = d.next.secrets;
    let master = secrets.master;
    Progress {
        course: Course::Going,
        connection: d.next,
        handed: Some(Derived {
            master,
            blocks: d.blocks,
        }),
        at,
        ..p
    }
}

// Behind a message that was accepted in this phase.
fn advance(phase: Phase, p: Progress, d: Decision<Connection>, at: usize) -> Progress
    ensures { result ≡ advanced phase p d at }
{
    match phase {
        Phase::KeyExchange => with_master(p, d, at),
        _ => with_answer(p, d, at),
    }
}

// What the message of `size` bytes at the place that was come to leads to, where all of it is there.
fn judge_whole(p: Progress, table: Table, held: &[u8], content: &[u8], size: usize) -> Progress
    requires sound { Sound (length held.now) (held.now ++ content.now) p }
    requires le_size { (4 ≤ size) × (size ≤ 16384) × ((p.at ≡ 0) → length held.now ≤ size) }
    ensures { Goes (view table.entry) (length held.now) (held.now ++ content.now)
        (where_whole (view table.entry) (judge_left (view table.entry)) (progress_of (held.now ++ content.now) p) size) p.at result }
{
    let at = p.at;
    if held.len() + content.len() - at < size {
        return on_course(p, Course::Waits);
    }
    let c = p.connection;
    match decide_at(c, table, held, content, at, at + size) {
        Ok(d) => advance(c.phase, p, d, at + size),
        Err(r) => on_course(p, Course::Refused(r)),
    }
}

// What the bytes from the place that was come to lead to, as far as one message.
fn judge_first(p: Progress, table: Table, held: &[u8], content: &[u8]) -> Progress
    requires sound { Sound (length held.now) (held.now ++ content.now) p }
    requires held_value { unfinished held.now ≡ true }
    requires content_len_bound { length held.now + length content.now ≤ 81919 }
    ensures { Goes (view table.entry) (length held.now) (held.now ++ content.now)
        (judge_left (view table.entry) (progress_of (held.now ++ content.now) p)) p.at result }
{
    let at = p.at;
    let c = p.connection;
    let phase = c.phase;
    let left = held.len() + content.len() - at;
    if left != 0 {
        if closing::is_complete(phase) {
            return on_course(p, Course::Refused(Refusal::UnexpectedMessage));
        }
    }
    if left < 4 {
        return on_course(p, Course::Waits);
    }
    let header = header_at(held, content, at);
    match server::judge_header(phase, header) {
        Ok(()) => { judge_whole(p, table, held, content, joining::message_end(header)) }
        Err(r) => on_course(p, Course::Refused(r)),
    }
}

// Before any of the bytes are judged.
fn begin(c: Connection) -> Progress
    ensures { (result.connection ≡ c) × (result.course ≡ Course.Going) × (result.at ≡ 0) × (result.handed ≡ None) × (flight_of result.outgoing ≡ silence) × (total result.outgoing.lengths ≤ 180) }
{
    let outgoing = handshake::no_messages();
    Progress {
        course: Course::Going,
        connection: c,
        outgoing,
        handed: None,
        at: 0,
    }
}

// Whether there is more to be judged.
fn is_going(course: Course) -> bool
    ensures { result ≡ is_going course }
{
    matches!(course, Course::Going)
}

// What the held bytes and the content behind them come to.
pub(crate) fn judge(c: Connection, table: Table, held: &[u8], content: &[u8]) -> Progress
    requires held_value { unfinished held.now ≡ true }
    requires content_len_bound { length held.now + length content.now ≤ 81919 }
    ensures { Ends (length held.now) (held.now ++ content.now)
        (judged (view table.entry) c (held.now ++ content.now)) result }
{
    let mut p = begin(c);
    while is_going(p.course) {
        p = judge_first(p, table, held, content);
    }
    p
}
