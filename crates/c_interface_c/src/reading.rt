// What C calls of `c_interface::reading`, with the same clauses.
ghost use Rattle.std.specs.Prelude.{◌≡◌};
ghost use Rattle.messages.specs.KeyExchange.{vector_place};
ghost use Rattle.messages.specs.Fixed.{fixed_place};
ghost use Rattle.messages.specs.NewSessionTicket.{ticket_place};
ghost use Rattle.hellos.specs.ClientHello.{client_place};
ghost use Rattle.hellos.specs.ServerHello.{server_place};
ghost use Rattle.c_interface.specs.Codes.{Reads};
ghost use Rattle.c_interface.specs.Fields.{part_read, ticket_read, server_read, client_read, extension_read};

#[unsafe(no_mangle)]
pub extern "C" fn tn_read_client_hello(message: &[u8], fields: &mut [u32; 9]) -> i32
    ensures { Reads (client_read (client_place message.now)) fields.old result fields.new }
{
    c_interface::reading::tn_read_client_hello(message, fields)
}

#[unsafe(no_mangle)]
pub extern "C" fn tn_read_server_hello(message: &[u8], fields: &mut [u32; 7]) -> i32
    ensures { Reads (server_read (server_place message.now)) fields.old result fields.new }
{
    c_interface::reading::tn_read_server_hello(message, fields)
}

#[unsafe(no_mangle)]
pub extern "C" fn tn_read_server_key_exchange(message: &[u8], fields: &mut [u32; 2]) -> i32
    ensures { Reads (part_read (vector_place 12 message.now)) fields.old result fields.new }
{
    c_interface::reading::tn_read_server_key_exchange(message, fields)
}

#[unsafe(no_mangle)]
pub extern "C" fn tn_read_client_key_exchange(message: &[u8], fields: &mut [u32; 2]) -> i32
    ensures { Reads (part_read (vector_place 16 message.now)) fields.old result fields.new }
{
    c_interface::reading::tn_read_client_key_exchange(message, fields)
}

#[unsafe(no_mangle)]
pub extern "C" fn tn_read_server_hello_done(message: &[u8]) -> i32
    ensures { result ≡ (part_read (fixed_place 14 0 message.now)).code }
{
    c_interface::reading::tn_read_server_hello_done(message)
}

#[unsafe(no_mangle)]
pub extern "C" fn tn_read_finished(message: &[u8], fields: &mut [u32; 2]) -> i32
    ensures { Reads (part_read (fixed_place 20 12 message.now)) fields.old result fields.new }
{
    c_interface::reading::tn_read_finished(message, fields)
}

#[unsafe(no_mangle)]
pub extern "C" fn tn_read_new_session_ticket(message: &[u8], fields: &mut [u32; 3]) -> i32
    ensures { Reads (ticket_read (ticket_place message.now)) fields.old result fields.new }
{
    c_interface::reading::tn_read_new_session_ticket(message, fields)
}

#[unsafe(no_mangle)]
pub extern "C" fn tn_next_extension(block: &[u8], at: usize, fields: &mut [u32; 3]) -> i32
    ensures { Reads (extension_read block.now at) fields.old result fields.new }
{
    c_interface::reading::tn_next_extension(block, at, fields)
}
