// What the layouts of all handshake messages are made of (document 01, "Message layouts"; RFC 5246,
// section 7.4): the header, vectors with a length in front, and the types.
//
// specs/Layout.antt says what a layout is and what makes a reader and a writer each other's inverse.
// A reader judges layout only, touches no memory and answers where each field stands. Used alone it
// refuses with decode_error and nothing else, so that its refusal need not say which.
#![tactic(auto)]

pub mod header;
pub mod place;
pub mod put;
pub mod types;

ghost use Rattle.std.specs.Prelude.{◌≡◌};
ghost use Rattle.lists.specs.Lists.{part};

// Where the contents of a vector stand in a message.
#[derive(Clone, Copy)]
pub struct Part {
    pub start: usize,
    pub len: usize,
}

impl Part {
    // The bytes that stand there, as far as the message has them.
    pub fn of(self, message: &[u8]) -> &[u8]
        ensures { result.now ≡ part self.start self.len message.now }
    {
        let start = self.start.min(message.len());
        let len = self.len.min(message.len() - start);
        &message[start..start + len]
    }
}
