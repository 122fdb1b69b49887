// Byte strings put together in a buffer: the PRF's output, a premaster secret, two randoms. The buffer is
// lent, so that each is built in one place.
ghost use Rattle.std.specs.Prelude.{◌≡◌, ◌++◌, ◌+◌, ◌≤◌, length, take};

// Puts a part behind the buffer's first `at` bytes.
pub(crate) fn append(buffer: &mut [u8], at: usize, part: &[u8])
    requires { at + length part.now ≤ length buffer.old }
    ensures { take (at + length part.now) buffer.new ≡ take at buffer.old ++ part.now }
{
    let end = at + part.len();
    lists::copy(part, &mut buffer[at..end]);
}
