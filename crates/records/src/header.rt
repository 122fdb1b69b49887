// A record's header: read with the tests on a record that came, and made for one that is sent.
ghost use Rattle.std.specs.Prelude.{◌≡◌, ◌++◌, ok_or};
ghost use Rattle.endian.specs.Number.{be};
ghost use Rattle.records.specs.Record.{front, type_number, type_of, record_read, length_read};
ghost use Rattle.refusal.specs.declared.Refusal.TheVariants.{UnexpectedMessage};

use crate::ContentType;
use refusal::Refusal;

// The number of a content type.
impl From<ContentType> for u8 {
    ghost from_gives = { λ kind n. n ≡ type_number kind };

    fn from(kind: ContentType) -> u8 {
        match kind {
            ContentType::ChangeCipherSpec => 20,
            ContentType::Alert => 21,
            ContentType::Handshake => 22,
            ContentType::ApplicationData => 23,
        }
    }
}

// The content type of a number; one that is none is an unexpected message.
impl TryFrom<u8> for ContentType {
    type Error = Refusal;

    ghost try_from_gives = { λ n r. r ≡ ok_or (type_of n) UnexpectedMessage };

    fn try_from(number: u8) -> Result<ContentType, Refusal> {
        match number {
            20 => Ok(ContentType::ChangeCipherSpec),
            21 => Ok(ContentType::Alert),
            22 => Ok(ContentType::Handshake),
            23 => Ok(ContentType::ApplicationData),
            _ => Err(Refusal::UnexpectedMessage),
        }
    }
}

// The test on the length of a fragment of n bytes, whose protection may add so many.
fn test_length(kind: ContentType, n: usize, added: usize) -> Result<ContentType, Refusal>
    ensures { result ≡ length_read added n kind }
{
    if 16384 < n {
        if added < n - 16384 {
            return Err(Refusal::RecordOverflow);
        }
    }
    Ok(kind)
}

// The tests on a record that came, whose protection may add so many bytes to the content.
pub fn read(received: &[u8], added: usize) -> Result<ContentType, Refusal>
    ensures { result ≡ record_read added received.now }
{
    if received.len() < 5 {
        return Err(Refusal::DecodeError);
    }
    let n = received.len() - 5;
    if endian::number16(received[3], received[4]) != n {
        return Err(Refusal::DecodeError);
    }
    let kind = ContentType::try_from(received[0])?;
    test_length(kind, n, added)
}

// The header of a record that is sent, with a fragment of n bytes.
pub(crate) fn made(kind: ContentType, n: usize) -> [u8; 5]
    ensures { result ≡ front kind ++ be 2 n }
{
    let size = endian::bytes::<2>(n as u64);
    [u8::from(kind), 3, 3, size[0], size[1]]
}
