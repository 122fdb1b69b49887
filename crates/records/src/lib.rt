// TLS 1.2 records (RFC 5246, section 6): their layout, their protection for the suite without a cipher,
// and handshake messages in them.
//
// specs/Record.antt has a record's bytes and the tests on one that came, specs/Protection.antt a connection
// state and the MAC, specs/Joining.antt where a message ends. Nothing here knows of a handshake.
#![tactic(auto)]

pub mod header;
pub mod joining;
pub mod protection;

// What a record holds (RFC 5246, section 6.2.1).
#[derive(Clone, Copy, Debug, PartialEq, Eq)]
pub enum ContentType {
    ChangeCipherSpec,
    Alert,
    Handshake,
    ApplicationData,
}

// The state of one direction of a connection (RFC 5246, section 6.1).
#[derive(Clone, Copy)]
pub struct State {
    // A flag and a key, and no Option: a saved connection has the bytes of both, whatever the flag says.
    pub protected: bool,
    // How many records were sent or taken under it.
    pub sequence: u64,
    // The MAC key; zeros where there is no protection.
    pub key: [u8; 32],
}

// What a record holds that passed all tests: its type, and how many bytes of the fragment are content.
#[derive(Clone, Copy)]
pub struct Content {
    pub kind: ContentType,
    pub len: usize,
}
