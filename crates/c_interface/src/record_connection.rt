// Record connections, on 576 bytes that the host keeps. Cleared bytes stand for a closed connection. An R number leaves the
// bytes as they were, an alert makes them those of a closed connection.
ghost use Rattle.std.specs.Prelude.{◌≡◌, cond, ◌∷◌, pos};
ghost use Rattle.refusal.specs.Lent.{gives};
ghost use Rattle.server.specs.KeyExchange.{view_of};
ghost use Rattle.record_server.specs.Connection.{alert_of};
ghost use Rattle.record_server.specs.Taking.{take_call};
ghost use Rattle.record_server.specs.Sending.{send_call, close_call};
ghost use Rattle.saved.specs.Saved.{phase_byte};
ghost use Rattle.saved_records.specs.Saved.{restored};
ghost use Rattle.c_interface.specs.Codes.{Codes};
ghost use Rattle.c_interface.specs.Records.{KeepsRecord, StartsRecord, TakesRecord, record_start_call, data_fields};
ghost use Rattle.c_interface.specs.Inner.{DataFits};

use crate::code;
use crate::connection::named;
use keytable::Table;
use record_server::RecordConnection;
use refusal::Refusal;

// A new record connection; rule 0 names none, 1 is tell, 2 hide, and R3 any other.
pub fn tn_record_start(
    connection: &mut [u8; 576],
    random: &[u8],
    hint: &[u8],
    stand_in: &[u8],
    rule: u8,
) -> i32
    ensures { StartsRecord (record_start_call random.now hint.now stand_in.now rule)
        connection.old result connection.new }
{
    if 2 < rule {
        return code::of_refusal(Refusal::BadSetting);
    }
    let answer = record_server::start(random, hint, stand_in, named(rule));
    code::keep(answer.said, &saved_records::save(answer.next), connection)
}

// The four numbers of a record that was accepted.
fn told_of(handed: bool, holds: Option<usize>) -> [u32; 4]
    requires { DataFits holds }
    ensures { result ≡ cond handed 1 0 ∷ data_fields holds }
{
    let first = u32::from(handed);
    match holds {
        None => [first, 0, 0, 0],
        Some(n) => [first, 1, 5, n as u32],
    }
}

// The connection that the bytes stand for. A function of its own, so that the compiler keeps no second copy of it on
// the stack while a record is judged, which is where the stack is deepest.
fn connection_of(connection: &[u8; 576]) -> RecordConnection
    ensures { result ≡ restored connection.now }
{
    let bytes = *connection;
    saved_records::restore(bytes)
}

// A record. The master secret, and how many blocks were hashed for it, are written where one is handed over. The four numbers are written where the record is
// accepted: whether the secret was, whether the record holds application data, where that starts and its length.
pub fn tn_take_record(
    connection: &mut [u8; 576],
    table: &[u8],
    starts: &[u32],
    count: usize,
    received: &[u8],
    memory: &mut [u8],
    out: &mut [u8],
    master: &mut [u8; 48],
    told: &mut [u32; 4],
    blocks: &mut u64,
) -> i32
    ensures keeps_record { KeepsRecord (take_call (view_of table.now starts.now count) (restored connection.old)
        received.now memory.old out.old).said
        (take_call (view_of table.now starts.now count) (restored connection.old)
        received.now memory.old out.old).next
        connection.old result connection.new }
    ensures takes_record { TakesRecord (take_call (view_of table.now starts.now count) (restored connection.old)
        received.now memory.old out.old)
        out.new memory.new master.old master.new told.old told.new blocks.old blocks.new }
{
    let table = Table {
        bytes: table,
        starts,
        count,
    };
    let taken = record_server::take(connection_of(connection), table, received, memory, out);
    let said = taken.said;
    let holds = taken.holds;
    let next = taken.next;
    if let Some(derived) = taken.handed {
        let secret = derived.master;
        *master = secret;
        *blocks = derived.blocks;
    }
    if said.is_ok() {
        *told = told_of(taken.handed.is_some(), holds);
    }
    code::keep(said, &saved_records::save(next), connection)
}

// Application data to the client.
pub fn tn_send_data(connection: &mut [u8; 576], content: &[u8], out: &mut [u8]) -> i32
    ensures keeps_record { KeepsRecord (send_call (restored connection.old) content.now out.old).said
        (send_call (restored connection.old) content.now out.old).next
        connection.old result connection.new }
    ensures out_after { out.new ≡ (send_call (restored connection.old) content.now out.old).out }
{
    let bytes = *connection;
    let answer = record_server::send(saved_records::restore(bytes), content, out);
    code::keep(answer.said, &saved_records::save(answer.next), connection)
}

// A close_notify, and the connection closed.
pub fn tn_send_close(connection: &mut [u8; 576], out: &mut [u8]) -> i32
    ensures keeps_record { KeepsRecord (close_call (restored connection.old) out.old).said
        (close_call (restored connection.old) out.old).next connection.old result connection.new }
    ensures out_after { out.new ≡ (close_call (restored connection.old) out.old).out }
{
    let bytes = *connection;
    let answer = record_server::close(saved_records::restore(bytes), out);
    code::keep(answer.said, &saved_records::save(answer.next), connection)
}

// The record of the alert that closed the connection.
pub fn tn_closing_alert(connection: &[u8; 576], out: &mut [u8]) -> i32
    ensures { Codes (gives (alert_of (restored connection.now))) out.old result out.new }
{
    let bytes = *connection;
    code::of_answer(record_server::alert(saved_records::restore(bytes), out))
}

// What the connection awaits, as tn_phase tells it.
pub fn tn_record_phase(connection: &[u8; 576]) -> i32
    ensures { result ≡ pos (phase_byte (restored connection.now).handshake.phase) }
{
    let bytes = *connection;
    let c = saved_records::restore(bytes);
    let handshake = c.handshake;
    saved::phase(handshake) as i32
}
