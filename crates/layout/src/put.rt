// Writing a message whose front is built and whose last part is lent.
ghost use Rattle.std.specs.Prelude.{◌++◌};
ghost use Rattle.refusal.specs.Lent.{Answers, gives};

use refusal::Refusal;

// Two parts, or R1 where the lent output is shorter than both.
pub fn two(head: &[u8], tail: &[u8], out: &mut [u8]) -> Result<usize, Refusal>
    ensures { Answers (gives (head.now ++ tail.now)) out.old result out.new }
{
    if out.len() < head.len() {
        return Err(Refusal::ShortOutput);
    }
    if out.len() - head.len() < tail.len() {
        return Err(Refusal::ShortOutput);
    }
    let next = lists::copy(head, out);
    let end = next + lists::copy(tail, &mut out[next..]);
    Ok(end)
}
