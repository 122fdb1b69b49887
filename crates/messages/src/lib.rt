// The layouts of the handshake messages that are no hellos, for reading and for writing (document 01,
// "Message layouts"; RFC 5246, section 7.4; RFC 4279, section 2).
//
// The files of specs/ have each message's layout, and what they are made of is the crate `layout`. A
// reader's refusal is decode_error. A writer takes any values: R5 for what the layout forbids, then R1.
#![tactic(auto)]

pub mod fixed;
pub mod key_exchange;
pub mod ticket;
