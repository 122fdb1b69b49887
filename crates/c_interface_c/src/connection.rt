// What C calls of `c_interface::connection`, with the same clauses.
ghost use Rattle.std.specs.Prelude.{◌≡◌, pos};
ghost use Rattle.server.specs.KeyExchange.{view_of};
ghost use Rattle.server.specs.Message.{message_call};
ghost use Rattle.server.specs.Change.{change_call};
ghost use Rattle.server.specs.Alert.{alert_call};
ghost use Rattle.saved.specs.Saved.{restored, phase_byte};
ghost use Rattle.c_interface.specs.Connections.{Keeps, Starts, Replies, start_call};

#[unsafe(no_mangle)]
pub extern "C" fn tn_start(
    connection: &mut [u8; 388],
    random: &[u8],
    hint: &[u8],
    stand_in: &[u8],
    rule: u8,
) -> i32
    ensures { Starts (start_call random.now hint.now stand_in.now rule) connection.old result connection.new }
{
    c_interface::connection::tn_start(connection, random, hint, stand_in, rule)
}

#[unsafe(no_mangle)]
pub extern "C" fn tn_message(
    connection: &mut [u8; 388],
    table: &[u8],
    starts: &[u32],
    count: usize,
    message: &[u8],
    out: &mut [u8],
    master: &mut [u8; 48],
    blocks: &mut u64,
) -> i32
    ensures keeps { Keeps (message_call (view_of table.now starts.now count) (restored connection.old) message.now out.old)
        connection.old result connection.new }
    ensures replies { Replies (view_of table.now starts.now count) (restored connection.old) message.now
        out.old out.new master.old master.new blocks.old blocks.new }
{
    c_interface::connection::tn_message(
        connection, table, starts, count, message, out, master, blocks,
    )
}

#[unsafe(no_mangle)]
pub extern "C" fn tn_change_of_cipher(connection: &mut [u8; 388]) -> i32
    ensures { Keeps (change_call (restored connection.old)) connection.old result connection.new }
{
    c_interface::connection::tn_change_of_cipher(connection)
}

#[unsafe(no_mangle)]
pub extern "C" fn tn_alert(connection: &mut [u8; 388], level: u8, description: u8) -> i32
    ensures { Keeps (alert_call (restored connection.old) level description) connection.old result connection.new }
{
    c_interface::connection::tn_alert(connection, level, description)
}

#[unsafe(no_mangle)]
pub extern "C" fn tn_phase(connection: &[u8; 388]) -> i32
    ensures { result ≡ pos (phase_byte (restored connection.now).phase) }
{
    c_interface::connection::tn_phase(connection)
}

#[unsafe(no_mangle)]
pub extern "C" fn tn_suite(connection: &[u8; 388]) -> i32
    ensures { result ≡ pos (restored connection.now).client.suite }
{
    c_interface::connection::tn_suite(connection)
}
