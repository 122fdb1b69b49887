// Which bytes may stand in an identity and in a key, and how far the bytes of either go.
ghost use Rattle.std.specs.Prelude.{◌≡◌, ◌≤◌, ◌+◌, ℕ, Bool, length, drop};
ghost use Rattle.lists.specs.Lists.{each};
ghost use Rattle.keytable.specs.Table.{plain};
ghost use Rattle.keytable.specs.Inner.{Says, leading};

// Whether an identity may have the byte.
pub(crate) fn plain(b: u8) -> bool
    ensures { result ≡ plain b }
{
    b >= 32 && b != 127 && b != 58
}

// Whether all bytes are of the class that the test is of.
pub(crate) fn all<F: Fn(u8) -> bool>(belongs: F, s: &[u8]) -> bool
    requires { F.IsAlwaysCallable belongs }
    ensures { (p : ℕ → Bool) → Says (F.post belongs) p → result ≡ each p s.now }
{
    s.iter().all(|&b| belongs(b))
}

// Where the bytes of the class end that stand from `at` on.
pub(crate) fn class_end<F: Fn(u8) -> bool>(belongs: F, table: &[u8], at: usize) -> usize
    requires callable { F.IsAlwaysCallable belongs }
    requires at_in_bounds { at ≤ length table.now }
    ensures within { (at ≤ result) × (result ≤ length table.now) }
    ensures value { (p : ℕ → Bool) → Says (F.post belongs) p → result ≡ at + length (leading p (drop at table.now)) }
{
    at + table[at..].iter().take_while(|&&b| belongs(b)).count()
}
