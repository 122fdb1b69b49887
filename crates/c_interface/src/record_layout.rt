// The layout and the protection of a record, without a connection.
ghost use Rattle.std.specs.Prelude.{◌≡◌, pos};
ghost use Rattle.records.specs.Protection.{initial_state, opened};
ghost use Rattle.records.specs.Joining.{message_end};
ghost use Rattle.c_interface.specs.Codes.{Codes, Reads};
ghost use Rattle.c_interface.specs.Records.{read_record, under, sealing_as, opened_code};

use crate::code;
use records::{ContentType, State, header, joining, protection};
use refusal::Refusal;

// Type, version, length of the fragment; the protection may add so many bytes to the content.
pub fn tn_read_record(received: &[u8], added: usize, fields: &mut [u32; 3]) -> i32
    ensures { Reads (read_record added received.now) fields.old result fields.new }
{
    match header::read(received, added) {
        Ok(kind) => {
            *fields = [
                u32::from(u8::from(kind)),
                endian::number16(received[1], received[2]) as u32,
                (received.len() - 5) as u32,
            ];
            0
        }
        Err(r) => code::of_refusal(r),
    }
}

// A record under this state; R5 for a number that is no content type.
fn seal(s: State, kind: u8, content: &[u8], out: &mut [u8]) -> i32
    ensures { Codes (sealing_as s kind content.now) out.old result out.new }
{
    match ContentType::try_from(kind) {
        Ok(kind) => code::of_answer(protection::seal(s, kind, content, out)),
        Err(_) => code::of_refusal(Refusal::BadValue),
    }
}

// A record without protection.
pub fn tn_write_record(kind: u8, content: &[u8], out: &mut [u8]) -> i32
    ensures { Codes (sealing_as initial_state kind content.now) out.old result out.new }
{
    seal(protection::initial(), kind, content, out)
}

fn state(key: [u8; 32], sequence: u64) -> State
    ensures { result ≡ under key sequence }
{
    State {
        protected: true,
        sequence,
        key,
    }
}

// A record with its MAC under this key and number.
pub fn tn_seal_record(
    key: &[u8; 32],
    sequence: u64,
    kind: u8,
    content: &[u8],
    out: &mut [u8],
) -> i32
    ensures { Codes (sealing_as (under key.now sequence) kind content.now) out.old result out.new }
{
    let bytes = *key;
    seal(state(bytes, sequence), kind, content, out)
}

// How many bytes of a record that came under this key and number are content, from 5 on.
pub fn tn_open_record(key: &[u8; 32], sequence: u64, received: &[u8]) -> i32
    ensures { result ≡ opened_code (opened (under key.now sequence) received.now) }
{
    let bytes = *key;
    match protection::open(state(bytes, sequence), received) {
        Ok(content) => content.len as i32,
        Err(r) => code::of_refusal(r),
    }
}

fn message_end(header: [u8; 4]) -> i32
    ensures { result ≡ pos (message_end header) }
{
    joining::message_end(header) as i32
}

// Where a handshake message with this header ends.
pub fn tn_message_end(header: &[u8; 4]) -> i32
    ensures { result ≡ pos (message_end header.now) }
{
    let bytes = *header;
    message_end(bytes)
}
