// The C interface as a static library: each function of `c_interface` under its own name, for C. A library of Rattle exports
// nothing to C, and a static library has no other crate above it.
#![tactic(auto)]

pub mod client_connection;
pub mod connection;
pub mod reading;
pub mod record_connection;
pub mod record_layout;
pub mod secrets;
pub mod table;
pub mod writing;
