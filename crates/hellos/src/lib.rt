// ClientHello and ServerHello, for reading and for writing (document 01, "Message layouts"; RFC 5246,
// sections 7.4.1.2 and 7.4.1.3).
//
// specs/Hello.antt has what the two share, specs/ClientHello.antt and specs/ServerHello.antt the rest.
// A reader's refusal is decode_error. A writer takes any values: R5 for what the layout forbids, then R1.
#![tactic(auto)]

pub mod client_hello;
mod hello;
mod put;
pub mod server_hello;
