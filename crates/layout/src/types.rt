// The types of the handshake messages (RFC 5246, section 7.4; RFC 5077, section 3.3), and our limit on
// a whole message.
pub const CLIENT_HELLO: u8 = 1;

pub const SERVER_HELLO: u8 = 2;

pub const NEW_SESSION_TICKET: u8 = 4;

pub const SERVER_KEY_EXCHANGE: u8 = 12;

pub const SERVER_HELLO_DONE: u8 = 14;

pub const CLIENT_KEY_EXCHANGE: u8 = 16;

pub const FINISHED: u8 = 20;

pub const MESSAGE_LIMIT: usize = 16384;
