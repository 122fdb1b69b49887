// Big-endian numbers and vectors with their length in front. The definitions are for every width of
// a length field, and so are their laws (proofs/Numbers.antt, proofs/Vectors.antt) and the function
// that writes a number. Those that read one are at the widths that the layers above use: one for every
// width would ask its callers that there are at most eight bytes, and give each of them a u64.
#![tactic(auto)]

ghost use Rattle.std.specs.Prelude.{◌≡◌, [], ◌∷◌};
ghost use Rattle.endian.specs.Number.{be, number};

// The number of two bytes: a length.
pub fn number16(a: u8, b: u8) -> usize
    ensures { result ≡ number (a ∷ b ∷ []) }
{
    usize::from(u16::from_be_bytes([a, b]))
}

// The number of three bytes: a length.
pub fn number24(a: u8, b: u8, c: u8) -> usize
    ensures { result ≡ number (a ∷ b ∷ c ∷ []) }
{
    u32::from_be_bytes([0, a, b, c]) as usize
}

// The number of four bytes.
pub fn number32(a: u8, b: u8, c: u8, d: u8) -> u32
    ensures { result ≡ number (a ∷ b ∷ c ∷ d ∷ []) }
{
    u32::from_be_bytes([a, b, c, d])
}

// A number in N bytes; of one that N bytes do not hold, the low ones.
pub fn bytes<const N: usize>(n: u64) -> [u8; N]
    ensures { result ≡ be N n }
{
    let mut bytes = [0u8; N];
    let mut left = n;
    for i in (0..N).rev() {
        bytes[i] = (left % 256) as u8;
        left /= 256;
    }
    bytes
}
