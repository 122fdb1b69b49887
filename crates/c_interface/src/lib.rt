// The C interface: everything that the gateway's program may call. Numbers, byte slices (a pointer and
// a length in C) and lent arrays (a pointer in C); nothing is kept between two calls, and no call has a
// condition on what it is given.
//
// Each function gives what the crate below it says as one number, by the definitions of specs/Codes.antt:
// the count of bytes written, -n for Rn, -1000 - a for the alert a. A refusal writes nothing.
#![tactic(auto)]

pub mod client_connection;
mod code;
pub mod connection;
pub mod reading;
pub mod record_connection;
pub mod record_layout;
pub mod secrets;
pub mod table;
pub mod writing;
