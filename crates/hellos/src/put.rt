// Writing the parts of a hello front to back.
ghost use Rattle.std.specs.Prelude.{◌≡◌, ◌+◌, ◌≤◌, length};
ghost use Rattle.std.proofs.Math.Seq.{paste};
ghost use Rattle.endian.specs.Vector.{vector};
ghost use Rattle.hellos.specs.Hello.{between};

// The part at its place in the output, which has room for it; the answer is where the next one goes.
pub(crate) fn at(part: &[u8], out: &mut [u8], place: usize) -> usize
    requires { place + length part.now ≤ length out.old }
    ensures value { result ≡ place + length part.now }
    ensures out_after { out.new ≡ paste out.old place part.now (length part.now) }
{
    let n = lists::copy(part, &mut out[place..]);
    place + n
}

// A vector with a two-byte length at its place.
pub(crate) fn vector16(contents: &[u8], out: &mut [u8], place: usize) -> usize
    requires { place + length (vector 2 contents.now) ≤ length out.old }
    ensures value { result ≡ place + length (vector 2 contents.now) }
    ensures out_after { out.new ≡ paste out.old place (vector 2 contents.now) (length (vector 2 contents.now)) }
{
    let size = endian::bytes::<2>(contents.len() as u64);
    let next = at(&size, out, place);
    at(contents, out, next)
}

// Four parts one behind the other.
pub(crate) fn four(a: &[u8], b: &[u8], c: &[u8], d: &[u8], out: &mut [u8], place: usize) -> usize
    requires { place + length (between a.now b.now c.now d.now) ≤ length out.old }
    ensures value { result ≡ place + length (between a.now b.now c.now d.now) }
    ensures out_after { out.new ≡ paste out.old place (between a.now b.now c.now d.now)
        (length (between a.now b.now c.now d.now)) }
{
    let second = at(a, out, place);
    let third = at(b, out, second);
    let last = at(c, out, third);
    at(d, out, last)
}
