// What C calls of `c_interface::client_connection`, with the same clauses.
ghost use Rattle.std.specs.Prelude.{◌≡◌, pos};
ghost use Rattle.client.specs.Connection.{start_call};
ghost use Rattle.client.specs.Message.{message_call};
ghost use Rattle.client.specs.Change.{change_call};
ghost use Rattle.client.specs.Alert.{alert_call};
ghost use Rattle.saved_client.specs.Saved.{restored, phase_byte};
ghost use Rattle.c_interface.specs.Clients.{Keeps, Starts, Replies};

#[unsafe(no_mangle)]
pub extern "C" fn tn_client_start(
    client: &mut [u8; 413],
    random: &[u8],
    identity: &[u8],
    key: &[u8],
    out: &mut [u8],
) -> i32
    ensures starts { Starts (start_call (record { random = random.now; identity = identity.now; key = key.now }) out.old)
        client.old result client.new }
    ensures out_after { out.new ≡ (start_call (record { random = random.now; identity = identity.now; key = key.now }) out.old).out }
{
    c_interface::client_connection::tn_client_start(client, random, identity, key, out)
}

#[unsafe(no_mangle)]
pub extern "C" fn tn_client_message(
    client: &mut [u8; 413],
    message: &[u8],
    out: &mut [u8],
    master: &mut [u8; 48],
    blocks: &mut u64,
) -> i32
    ensures keeps { Keeps (message_call (restored client.old) message.now out.old) client.old result client.new }
    ensures replies { Replies (restored client.old) message.now out.old
        out.new master.old master.new blocks.old blocks.new }
{
    c_interface::client_connection::tn_client_message(client, message, out, master, blocks)
}

#[unsafe(no_mangle)]
pub extern "C" fn tn_client_change_of_cipher(client: &mut [u8; 413]) -> i32
    ensures { Keeps (change_call (restored client.old)) client.old result client.new }
{
    c_interface::client_connection::tn_client_change_of_cipher(client)
}

#[unsafe(no_mangle)]
pub extern "C" fn tn_client_alert(client: &mut [u8; 413], level: u8, description: u8) -> i32
    ensures { Keeps (alert_call (restored client.old) level description) client.old result client.new }
{
    c_interface::client_connection::tn_client_alert(client, level, description)
}

#[unsafe(no_mangle)]
pub extern "C" fn tn_client_phase(client: &[u8; 413]) -> i32
    ensures { result ≡ pos (phase_byte (restored client.now).phase) }
{
    c_interface::client_connection::tn_client_phase(client)
}

#[unsafe(no_mangle)]
pub extern "C" fn tn_client_suite(client: &[u8; 413]) -> i32
    ensures { result ≡ pos (restored client.now).server.suite }
{
    c_interface::client_connection::tn_client_suite(client)
}
