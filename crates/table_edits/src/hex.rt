// A key as hex digits in lower case, and the line of an identity and a key.
ghost use Rattle.std.specs.Prelude.{◌≡◌, ◌++◌, ◌∷◌, [], ◌+◌, ◌*◌, ◌<◌, length};
ghost use Rattle.keytable.specs.Table.{line_end};
ghost use Rattle.table_edits.specs.Edits.{lower_digit, lower_hex, line_with};

// The digit of a number below 16.
fn lower_digit(n: u8) -> u8
    requires { n < 16 }
    ensures { result ≡ lower_digit n }
{
    if n < 10 {
        return 48 + n;
    }
    97 + (n - 10)
}

// The key's digits, in a part of their length.
pub(crate) fn put_key(key: &[u8], out: &mut [u8])
    requires { length out.old ≡ 2 * length key.now }
    ensures { out.new ≡ lower_hex key.now }
{
    for (i, b) in key.iter().enumerate() {
        out[2 * i] = lower_digit(*b / 16);
        out[2 * i + 1] = lower_digit(*b % 16);
    }
}

// The line with its 0A, in a part of its length.
pub(crate) fn put_line(identity: &[u8], key: &[u8], out: &mut [u8])
    requires { length out.old ≡ length identity.now + 2 * length key.now + 2 }
    ensures { out.new ≡ line_with identity.now key.now ++ (line_end ∷ []) }
{
    let end = out.len() - 1;
    let colon = lists::copy(identity, out);
    let digits = colon + 1;
    out[colon] = 58;
    put_key(key, &mut out[digits..end]);
    out[end] = 10;
}
