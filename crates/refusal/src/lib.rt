// The numbers that come back (document 01, and document 02's requests) as one enum. A call that is lent memory tells its caller
// a `Result<usize, Refusal>`: so many bytes stand at the front of that memory, or a refusal, and then nothing
// was written.
//
// specs/Table.antt is document 01's table. specs/Lent.antt says what an answer leaves in lent memory.
#![tactic(auto)]

ghost use Rattle.std.specs.Prelude.{◌≡◌};
ghost use Rattle.refusal.specs.Table.{number_of, to_peer};
ghost use Rattle.refusal.specs.Lent.{Answers, gives};

#[derive(Clone, Copy, Debug, PartialEq, Eq)]
pub enum Refusal {
    // R1: lent output shorter than the answer
    ShortOutput,
    // R2: key table not well formed
    BadTable,
    // R3: bad setting at start
    BadSetting,
    // R4: connection complete or closed
    ConnectionOver,
    // R5: value to be written that its layout forbids, or a length outside its limit
    BadValue,
    // R6: identity already listed
    AlreadyListed,
    // R7: identity not listed
    NotListed,
    // R8: a 257th line, or a table of over 65,536 bytes
    TableFull,
    // R9: a record under the last sequence number
    SequenceSpent,
    // R10: list of line starts not the table's
    BadList,
    // The rest are TLS alerts, under their names in RFC 5246 section 7.2 and RFC 4279 section 6.
    UnexpectedMessage,
    BadRecordMac,
    RecordOverflow,
    HandshakeFailure,
    IllegalParameter,
    DecodeError,
    DecryptError,
    ProtocolVersion,
    UnsupportedExtension,
    UnknownPskIdentity,
}

impl Refusal {
    // Whether the number is a fatal alert for the peer. If not, it is an R number for the host.
    // R10 and alert 10 share their number, so a caller that mixes both needs this too.
    pub fn for_peer(self) -> bool
        ensures { result ≡ to_peer self }
    {
        match self {
            Refusal::ShortOutput
            | Refusal::BadTable
            | Refusal::BadSetting
            | Refusal::ConnectionOver
            | Refusal::BadValue
            | Refusal::AlreadyListed
            | Refusal::NotListed
            | Refusal::TableFull
            | Refusal::SequenceSpent
            | Refusal::BadList => false,
            Refusal::UnexpectedMessage
            | Refusal::BadRecordMac
            | Refusal::RecordOverflow
            | Refusal::HandshakeFailure
            | Refusal::IllegalParameter
            | Refusal::DecodeError
            | Refusal::DecryptError
            | Refusal::ProtocolVersion
            | Refusal::UnsupportedExtension
            | Refusal::UnknownPskIdentity => true,
        }
    }
}

// The refusal's number in document 01's table: n for Rn, and the alert's own for an alert.
impl From<Refusal> for u8 {
    ghost from_gives = { λ r n. n ≡ number_of r };

    fn from(r: Refusal) -> u8 {
        match r {
            Refusal::ShortOutput => 1,
            Refusal::BadTable => 2,
            Refusal::BadSetting => 3,
            Refusal::ConnectionOver => 4,
            Refusal::BadValue => 5,
            Refusal::AlreadyListed => 6,
            Refusal::NotListed => 7,
            Refusal::TableFull => 8,
            Refusal::SequenceSpent => 9,
            Refusal::BadList | Refusal::UnexpectedMessage => 10,
            Refusal::BadRecordMac => 20,
            Refusal::RecordOverflow => 22,
            Refusal::HandshakeFailure => 40,
            Refusal::IllegalParameter => 47,
            Refusal::DecodeError => 50,
            Refusal::DecryptError => 51,
            Refusal::ProtocolVersion => 70,
            Refusal::UnsupportedExtension => 110,
            Refusal::UnknownPskIdentity => 115,
        }
    }
}

// The bytes at the front of the lent output, or R1 where it is shorter than they are.
pub fn put(answer: &[u8], out: &mut [u8]) -> Result<usize, Refusal>
    ensures { Answers (gives answer.now) out.old result out.new }
{
    if out.len() < answer.len() {
        return Err(Refusal::ShortOutput);
    }
    let n = lists::copy(answer, out);
    Ok(n)
}
