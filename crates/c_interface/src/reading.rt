// Where the fields of a message stand: 0 and the fields in the lent array, or alert 50 and the array as
// it was. specs/Fields.antt has the order of each message's fields.
ghost use Rattle.std.specs.Prelude.{◌≡◌};
ghost use Rattle.messages.specs.KeyExchange.{vector_place};
ghost use Rattle.messages.specs.Fixed.{fixed_place};
ghost use Rattle.messages.specs.NewSessionTicket.{ticket_place};
ghost use Rattle.hellos.specs.ClientHello.{client_place};
ghost use Rattle.hellos.specs.ServerHello.{server_place};
ghost use Rattle.c_interface.specs.Codes.{Reads};
ghost use Rattle.c_interface.specs.Fields.{part_read, block_fields, ticket_read, server_read, client_read, extension_read};
ghost use Rattle.c_interface.specs.Inner.{PartFits};

use crate::code;
use extensions::Step;
use hellos::{client_hello, server_hello};
use layout::Part;
use messages::{fixed, key_exchange, ticket};
use refusal::Refusal;

// What a block's three fields are.
fn block_fields(block: Option<Part>) -> [u32; 3]
    requires { PartFits block }
    ensures { result ≡ block_fields block }
{
    match block {
        Some(part) => [1, part.start as u32, part.len as u32],
        None => [0, 0, 0],
    }
}

// Version, length of the session id, start and length of the suites, start and length of the
// compression methods, then the block: whether it is present, its start and its length.
pub fn tn_read_client_hello(message: &[u8], fields: &mut [u32; 9]) -> i32
    ensures { Reads (client_read (client_place message.now)) fields.old result fields.new }
{
    let Some(hello) = client_hello::read(message) else {
        return code::of_refusal(Refusal::DecodeError);
    };
    let [present, start, len] = block_fields(hello.block);
    *fields = [
        hello.version as u32,
        hello.session_len as u32,
        hello.suites.start as u32,
        hello.suites.len as u32,
        hello.methods.start as u32,
        hello.methods.len as u32,
        present,
        start,
        len,
    ];
    0
}

// Version, length of the session id, suite, compression method, then the block: whether it is present,
// its start and its length.
pub fn tn_read_server_hello(message: &[u8], fields: &mut [u32; 7]) -> i32
    ensures { Reads (server_read (server_place message.now)) fields.old result fields.new }
{
    let Some(hello) = server_hello::read(message) else {
        return code::of_refusal(Refusal::DecodeError);
    };
    let [present, start, len] = block_fields(hello.block);
    *fields = [
        hello.version as u32,
        hello.session_len as u32,
        hello.suite as u32,
        hello.compression as u32,
        present,
        start,
        len,
    ];
    0
}

// A part's start and length.
fn put_part(part: Option<Part>, fields: &mut [u32; 2]) -> i32
    requires { PartFits part }
    ensures { Reads (part_read part) fields.old result fields.new }
{
    let Some(part) = part else {
        return code::of_refusal(Refusal::DecodeError);
    };
    *fields = [part.start as u32, part.len as u32];
    0
}

// Start and length of the hint.
pub fn tn_read_server_key_exchange(message: &[u8], fields: &mut [u32; 2]) -> i32
    ensures { Reads (part_read (vector_place 12 message.now)) fields.old result fields.new }
{
    put_part(key_exchange::read_hint(message), fields)
}

// Start and length of the identity.
pub fn tn_read_client_key_exchange(message: &[u8], fields: &mut [u32; 2]) -> i32
    ensures { Reads (part_read (vector_place 16 message.now)) fields.old result fields.new }
{
    put_part(key_exchange::read_identity(message), fields)
}

// There is no field: the body is empty.
pub fn tn_read_server_hello_done(message: &[u8]) -> i32
    ensures { result ≡ (part_read (fixed_place 14 0 message.now)).code }
{
    if fixed::read_done(message).is_none() {
        return code::of_refusal(Refusal::DecodeError);
    }
    0
}

// Start and length of the verify data.
pub fn tn_read_finished(message: &[u8], fields: &mut [u32; 2]) -> i32
    ensures { Reads (part_read (fixed_place 20 12 message.now)) fields.old result fields.new }
{
    put_part(fixed::read_finished(message), fields)
}

// Lifetime hint, start and length of the ticket.
pub fn tn_read_new_session_ticket(message: &[u8], fields: &mut [u32; 3]) -> i32
    ensures { Reads (ticket_read (ticket_place message.now)) fields.old result fields.new }
{
    let Some(read) = ticket::read(message) else {
        return code::of_refusal(Refusal::DecodeError);
    };
    *fields = [
        read.lifetime_hint,
        read.ticket.start as u32,
        read.ticket.len as u32,
    ];
    0
}

// The extension at `at`: 1 and its type, its data's start and length, or 0 at the end of the block.
pub fn tn_next_extension(block: &[u8], at: usize, fields: &mut [u32; 3]) -> i32
    ensures { Reads (extension_read block.now at) fields.old result fields.new }
{
    if 65535 < block.len() {
        return code::of_refusal(Refusal::DecodeError);
    }
    match extensions::next(block, at) {
        Step::Extension { kind, start, len } => {
            *fields = [kind as u32, start as u32, len as u32];
            1
        }
        Step::End => 0,
        Step::Refused => code::of_refusal(Refusal::DecodeError),
    }
}
