// Printing to a writer, without line ends.
ghost use Rattle.std.specs.Prelude.{◌≡◌, IfOk, length};
ghost use Rattle.lines.specs.Digits.{IsDigitCount};
ghost use Rattle.refusal.specs.Table.{number_of};

use refusal::Refusal;
use std::io;
use std::io::Write;

// The bytes as they stand; answers how many there are.
pub fn text(output: &mut impl Write, bytes: &[u8]) -> io::Result<usize>
    ensures { IfOk result (λ n. n ≡ length bytes.now) }
{
    output.write_all(bytes)?;
    Ok(bytes.len())
}

// Two digits for each byte; answers how many bytes there are. Both digits go out in one write: a `write!` of `{b:02x}` makes
// two of a byte below 16, and an output without a buffer hands each to the system.
pub fn hex(output: &mut impl Write, bytes: &[u8]) -> io::Result<usize>
    ensures { IfOk result (λ n. n ≡ length bytes.now) }
{
    let digits = b"0123456789abcdef";
    for &b in bytes {
        output.write_all(&[digits[usize::from(b / 16)], digits[usize::from(b % 16)]])?;
    }
    Ok(bytes.len())
}

// A number in decimal; answers how many digits it takes.
pub fn number(output: &mut impl Write, n: usize) -> io::Result<usize>
    ensures { IfOk result (λ k. IsDigitCount 10 1 n k) }
{
    write!(output, "{n}")?;
    Ok(digit_count(n))
}

fn digit_count(n: usize) -> usize
    ensures { IsDigitCount 10 1 n result }
{
    match n.checked_ilog10() {
        None => 1,
        Some(k) => k as usize + 1,
    }
}

// A refusal: R and its number where it is the host's, the alert's number alone where it is the client's.
// Answers the number.
pub fn refused(output: &mut impl Write, r: Refusal) -> io::Result<u8>
    ensures { IfOk result (λ n. n ≡ number_of r) }
{
    if !r.for_peer() {
        text(output, b"R")?;
    }
    let n = u8::from(r);
    number(output, usize::from(n))?;
    Ok(n)
}
