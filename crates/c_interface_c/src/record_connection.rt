// What C calls of `c_interface::record_connection`, with the same clauses.
ghost use Rattle.std.specs.Prelude.{◌≡◌, pos};
ghost use Rattle.refusal.specs.Lent.{gives};
ghost use Rattle.server.specs.KeyExchange.{view_of};
ghost use Rattle.record_server.specs.Connection.{alert_of};
ghost use Rattle.record_server.specs.Taking.{take_call};
ghost use Rattle.record_server.specs.Sending.{send_call, close_call};
ghost use Rattle.saved.specs.Saved.{phase_byte};
ghost use Rattle.saved_records.specs.Saved.{restored};
ghost use Rattle.c_interface.specs.Codes.{Codes};
ghost use Rattle.c_interface.specs.Records.{KeepsRecord, StartsRecord, TakesRecord, record_start_call};

#[unsafe(no_mangle)]
pub extern "C" fn tn_record_start(
    connection: &mut [u8; 576],
    random: &[u8],
    hint: &[u8],
    stand_in: &[u8],
    rule: u8,
) -> i32
    ensures { StartsRecord (record_start_call random.now hint.now stand_in.now rule)
        connection.old result connection.new }
{
    c_interface::record_connection::tn_record_start(connection, random, hint, stand_in, rule)
}

#[unsafe(no_mangle)]
pub extern "C" fn tn_take_record(
    connection: &mut [u8; 576],
    table: &[u8],
    starts: &[u32],
    count: usize,
    received: &[u8],
    memory: &mut [u8],
    out: &mut [u8],
    master: &mut [u8; 48],
    told: &mut [u32; 4],
    blocks: &mut u64,
) -> i32
    ensures keeps_record { KeepsRecord (take_call (view_of table.now starts.now count) (restored connection.old)
        received.now memory.old out.old).said
        (take_call (view_of table.now starts.now count) (restored connection.old)
        received.now memory.old out.old).next
        connection.old result connection.new }
    ensures takes_record { TakesRecord (take_call (view_of table.now starts.now count) (restored connection.old)
        received.now memory.old out.old)
        out.new memory.new master.old master.new told.old told.new blocks.old blocks.new }
{
    c_interface::record_connection::tn_take_record(
        connection, table, starts, count, received, memory, out, master, told, blocks,
    )
}

#[unsafe(no_mangle)]
pub extern "C" fn tn_send_data(connection: &mut [u8; 576], content: &[u8], out: &mut [u8]) -> i32
    ensures keeps_record { KeepsRecord (send_call (restored connection.old) content.now out.old).said
        (send_call (restored connection.old) content.now out.old).next
        connection.old result connection.new }
    ensures out_after { out.new ≡ (send_call (restored connection.old) content.now out.old).out }
{
    c_interface::record_connection::tn_send_data(connection, content, out)
}

#[unsafe(no_mangle)]
pub extern "C" fn tn_send_close(connection: &mut [u8; 576], out: &mut [u8]) -> i32
    ensures keeps_record { KeepsRecord (close_call (restored connection.old) out.old).said
        (close_call (restored connection.old) out.old).next connection.old result connection.new }
    ensures out_after { out.new ≡ (close_call (restored connection.old) out.old).out }
{
    c_interface::record_connection::tn_send_close(connection, out)
}

#[unsafe(no_mangle)]
pub extern "C" fn tn_closing_alert(connection: &[u8; 576], out: &mut [u8]) -> i32
    ensures { Codes (gives (alert_of (restored connection.now))) out.old result out.new }
{
    c_interface::record_connection::tn_closing_alert(connection, out)
}

#[unsafe(no_mangle)]
pub extern "C" fn tn_record_phase(connection: &[u8; 576]) -> i32
    ensures { result ≡ pos (phase_byte (restored connection.now).handshake.phase) }
{
    c_interface::record_connection::tn_record_phase(connection)
}
