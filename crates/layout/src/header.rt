// The header of a handshake message: its type, the length of its body, and our limit on the whole.
ghost use Rattle.std.specs.Prelude.{◌≡◌};
ghost use Rattle.layout.specs.Header.{header};

use crate::types;
use refusal::Refusal;

// The tests on a header in document 01's order. The refusals are those for a message that a
// connection awaits; a reader used alone answers decode_error in the place of each.
pub fn test(kind: u8, message: &[u8]) -> Result<(), Refusal>
    ensures { result ≡ header kind message.now }
{
    if message.len() < 4 {
        return Err(Refusal::DecodeError);
    }
    if message[0] != kind {
        return Err(Refusal::UnexpectedMessage);
    }
    if endian::number24(message[1], message[2], message[3]) != message.len() - 4 {
        return Err(Refusal::DecodeError);
    }
    if types::MESSAGE_LIMIT < message.len() {
        return Err(Refusal::DecodeError);
    }
    Ok(())
}
