// The number that comes back to C.
ghost use Rattle.std.specs.Prelude.{◌≡◌, ◌<◌, ◌^◌, pos, neg_ℤ};
ghost use Rattle.c_interface.specs.Codes.{coded, refusal_code};
ghost use Rattle.c_interface.specs.Inner as Inner;
ghost use Rattle.c_interface.specs.Inner.{count};
ghost use Rattle.c_interface.specs.Kept.{kept_bytes};

use refusal::Refusal;

fn below_zero(n: u16) -> i32
    ensures { result ≡ neg_ℤ (pos n) }
{
    -(n as i32)
}

// The code of a refusal.
pub(crate) fn of_refusal(r: Refusal) -> i32
    ensures { result ≡ refusal_code r }
{
    let n = u16::from(u8::from(r));
    if r.for_peer() {
        return below_zero(1000 + n);
    }
    below_zero(n)
}

// The code of what a call said that was lent an output.
pub(crate) fn of_answer(said: Result<usize, Refusal>) -> i32
    requires { count said < 2 ^ 31 }
    ensures { result ≡ coded said }
{
    match said {
        Ok(n) => n as i32,
        Err(r) => of_refusal(r),
    }
}

// Whether the bytes of a connection change with this answer: not with an R number.
fn changes(said: Result<usize, Refusal>) -> bool
    ensures { result ≡ Inner.changes said }
{
    match said {
        Ok(_) => true,
        Err(r) => r.for_peer(),
    }
}

// The code of what was said; the connection's bytes become those of the next one unless it is an R number.
pub(crate) fn keep<const N: usize>(
    said: Result<usize, Refusal>,
    next: &[u8; N],
    connection: &mut [u8; N],
) -> i32
    requires { count said < 2 ^ 31 }
    ensures value { result ≡ coded said }
    ensures kept { connection.new ≡ kept_bytes said next.now connection.old }
{
    if changes(said) {
        *connection = *next;
    }
    of_answer(said)
}
