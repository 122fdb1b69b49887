// ServerHelloDone and Finished: a body of a fixed length.
ghost use Rattle.std.specs.Prelude.{◌≡◌, [], ◌≤◌};
ghost use Rattle.refusal.specs.Lent.{Answers};
ghost use Rattle.layout.specs.Types.{server_hello_done_type, finished_type};
ghost use Rattle.layout.specs.Layout.{written};
ghost use Rattle.layout.specs.Place.{filled_by};
ghost use Rattle.messages.specs.Fixed.{fixed_place, server_hello_done, finished, verify_data_size};

use layout::{Part, header, put, types};
use refusal::Refusal;

const VERIFY_DATA_SIZE: usize = 12;

fn body(size: usize, message: &[u8]) -> Option<Part>
    requires { size ≤ verify_data_size }
    ensures { result ≡ filled_by size message.now }
{
    (message.len() == 4 + size).then_some(Part {
        start: 4,
        len: size,
    })
}

fn read(kind: u8, size: usize, message: &[u8]) -> Option<Part>
    requires { size ≤ verify_data_size }
    ensures { result ≡ fixed_place kind size message.now }
{
    header::test(kind, message).ok()?;
    body(size, message)
}

// Whether the message is a ServerHelloDone: its body is the empty part.
pub fn read_done(message: &[u8]) -> Option<Part>
    ensures { result ≡ fixed_place server_hello_done_type 0 message.now }
{
    read(types::SERVER_HELLO_DONE, 0, message)
}

// The same of a message whose header is tested already: the test on the body alone.
pub fn read_done_body(message: &[u8]) -> Option<Part>
    ensures { result ≡ filled_by 0 message.now }
{
    body(0, message)
}

// A ServerHelloDone.
pub fn write_done(out: &mut [u8]) -> Result<usize, Refusal>
    ensures { Answers (written server_hello_done []) out.old result out.new }
{
    let message = [types::SERVER_HELLO_DONE, 0, 0, 0];
    refusal::put(&message, out)
}

// Where the verify_data of a Finished stands.
pub fn read_finished(message: &[u8]) -> Option<Part>
    ensures { result ≡ fixed_place finished_type verify_data_size message.now }
{
    read(types::FINISHED, VERIFY_DATA_SIZE, message)
}

// The same of a message whose header is tested already: the test on the body alone.
pub fn read_finished_body(message: &[u8]) -> Option<Part>
    ensures { result ≡ filled_by verify_data_size message.now }
{
    body(VERIFY_DATA_SIZE, message)
}

// A Finished.
pub fn write_finished(verify_data: &[u8], out: &mut [u8]) -> Result<usize, Refusal>
    ensures { Answers (written finished verify_data.now) out.old result out.new }
{
    if verify_data.len() != VERIFY_DATA_SIZE {
        return Err(Refusal::BadValue);
    }
    let head = [types::FINISHED, 0, 0, VERIFY_DATA_SIZE as u8];
    put::two(&head, verify_data, out)
}
