// The messages, each at the front of the lent output: R5 for what the layout forbids, then R1.
ghost use Rattle.std.specs.Prelude.{[]};
ghost use Rattle.layout.specs.Layout.{written};
ghost use Rattle.hellos.specs.ClientHello.{client_hello, client_given};
ghost use Rattle.hellos.specs.ServerHello.{server_hello, server_given};
ghost use Rattle.messages.specs.KeyExchange.{server_key_exchange, client_key_exchange};
ghost use Rattle.messages.specs.Fixed.{server_hello_done, finished};
ghost use Rattle.messages.specs.NewSessionTicket.{new_session_ticket};
ghost use Rattle.extensions.specs.Extensions.{extension_written, ticket_extension};
ghost use Rattle.c_interface.specs.Codes.{Codes};
ghost use Rattle.c_interface.specs.Fields.{block_given};

use crate::code;
use hellos::{client_hello, server_hello};
use messages::{fixed, key_exchange, ticket};

// The block's bytes count only where it is present.
pub fn tn_write_client_hello(
    version: u32,
    random: &[u8],
    session_id: &[u8],
    suites: &[u8],
    methods: &[u8],
    present: bool,
    block: &[u8],
    out: &mut [u8],
) -> i32
    ensures { Codes (written client_hello (client_given version random.now session_id.now suites.now
        methods.now (block_given present block.now))) out.old result out.new }
{
    code::of_answer(client_hello::write(
        version as usize,
        random,
        session_id,
        suites,
        methods,
        present.then_some(block),
        out,
    ))
}

// The block's bytes count only where it is present.
pub fn tn_write_server_hello(
    version: u32,
    random: &[u8],
    session_id: &[u8],
    suite: u32,
    compression: u8,
    present: bool,
    block: &[u8],
    out: &mut [u8],
) -> i32
    ensures { Codes (written server_hello (server_given version random.now session_id.now suite compression
        (block_given present block.now))) out.old result out.new }
{
    code::of_answer(server_hello::write(
        version as usize,
        random,
        session_id,
        suite as usize,
        compression,
        present.then_some(block),
        out,
    ))
}

pub fn tn_write_server_key_exchange(hint: &[u8], out: &mut [u8]) -> i32
    ensures { Codes (written server_key_exchange hint.now) out.old result out.new }
{
    code::of_answer(key_exchange::write_hint(hint, out))
}

pub fn tn_write_client_key_exchange(identity: &[u8], out: &mut [u8]) -> i32
    ensures { Codes (written client_key_exchange identity.now) out.old result out.new }
{
    code::of_answer(key_exchange::write_identity(identity, out))
}

pub fn tn_write_server_hello_done(out: &mut [u8]) -> i32
    ensures { Codes (written server_hello_done []) out.old result out.new }
{
    code::of_answer(fixed::write_done(out))
}

pub fn tn_write_finished(verify_data: &[u8], out: &mut [u8]) -> i32
    ensures { Codes (written finished verify_data.now) out.old result out.new }
{
    code::of_answer(fixed::write_finished(verify_data, out))
}

pub fn tn_write_new_session_ticket(lifetime_hint: u32, ticket: &[u8], out: &mut [u8]) -> i32
    ensures { Codes (written new_session_ticket (record { lifetime_hint = lifetime_hint; ticket = ticket.now }))
        out.old result out.new }
{
    code::of_answer(ticket::write(lifetime_hint, ticket, out))
}

pub fn tn_write_extension(kind: u32, contents: &[u8], out: &mut [u8]) -> i32
    ensures { Codes (extension_written (record { kind = kind; contents = contents.now })) out.old result out.new }
{
    code::of_answer(extensions::write(kind as usize, contents, out))
}

// The SessionTicket extension.
pub fn tn_write_ticket_extension(ticket: &[u8], out: &mut [u8]) -> i32
    ensures { Codes (extension_written (ticket_extension ticket.now)) out.old result out.new }
{
    code::of_answer(extensions::write_ticket(ticket, out))
}
