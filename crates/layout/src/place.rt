// Where a vector stands in a message.
ghost use Rattle.std.specs.Prelude.{◌≡◌};
ghost use Rattle.layout.specs.Place.{whole_at, part_at, last_at, after_header};
ghost use Rattle.layout.specs.Header.{header};

use crate::{Part, header};

// The part of `len` bytes that starts at `start`, where the message has them all.
fn whole(message: &[u8], start: usize, len: usize) -> Option<Part>
    ensures { result ≡ whole_at message.now start len }
{
    let rest = message.get(start..)?;
    (len <= rest.len()).then_some(Part { start, len })
}

// The vector with a one-byte length that starts at `at`.
pub fn part8(message: &[u8], at: usize) -> Option<Part>
    ensures { result ≡ part_at 1 message.now at }
{
    let len = *message.get(at)?;
    whole(message, at + 1, usize::from(len))
}

// The vector with a two-byte length that starts at `at`.
pub fn part16(message: &[u8], at: usize) -> Option<Part>
    ensures { result ≡ part_at 2 message.now at }
{
    let [a, b] = *message.get(at..)?.first_chunk::<2>()?;
    whole(message, at + 2, endian::number16(a, b))
}

// The same where it has to end with the message.
pub fn last16(message: &[u8], at: usize) -> Option<Part>
    ensures { result ≡ last_at 2 message.now at }
{
    let part = part16(message, at)?;
    if part.start + part.len != message.len() {
        return None;
    }
    Some(part)
}

// The same in a message of the type `kind`, its header tested first.
pub fn last16_of(kind: u8, message: &[u8], at: usize) -> Option<Part>
    ensures { result ≡ after_header (header kind message.now) (last_at 2 message.now at) }
{
    header::test(kind, message).ok()?;
    last16(message, at)
}
