// No identity twice. Each identity has a bucket and a tag, numbers that equal ones have alike; of each bucket the latest
// line is known, and for each line the one before it in its bucket. So the bytes of two identities are compared only
// where bucket and tag are equal.
ghost use Rattle.std.specs.Prelude.{◌≡◌, true, ◌≤◌, length};
ghost use Rattle.lists.specs.Lists.{any, same};
ghost use Rattle.keytable.specs.Table.{valid_identity};
ghost use Rattle.keytable.specs.Inner.{earlier, bucket, tag_of, begins, fingerprint, Latest, Chained};

// A number that equal byte strings have alike: bucket and tag are parts of it.
pub(crate) fn fingerprint(s: &[u8]) -> u32
    ensures { result ≡ fingerprint 0 s.now }
{
    s.iter().fold(0, |p, &b| p % 67108864 * 33 + b as u32)
}

// Whether what stands at `at` begins with the identity and a colon, with no line's end among them.
fn begins(table: &[u8], at: usize, identity: &[u8]) -> bool
    ensures { result ≡ begins identity.now table.now at }
{
    let Some(rest) = table.get(at..) else {
        return false;
    };
    identity.iter().zip(rest).all(|(&i, &b)| b == i && b != 10)
        && rest.get(identity.len()) == Some(&58)
}

// Whether one of the first n lines has the identity. `latest` is the number, from 1 on, of the latest of them in its
// bucket, 0 where there is none. The arrays are those of `scan_lines`: in a struct with this as its method, they made the
// table's test a twentieth slower.
pub(crate) fn repeated(
    table: &[u8],
    starts: &[u16; 256],
    tags: &[u16; 256],
    links: &[u16; 256],
    n: usize,
    latest: usize,
    identity: &[u8],
    tag: u16,
) -> bool
    requires n_bound { n ≤ 256 }
    requires n_in_bounds { n ≤ length starts.now }
    requires identity_value { valid_identity identity.now ≡ true }
    requires tag_value { tag ≡ tag_of identity.now }
    requires chained { Chained table.now starts.now tags.now links.now n }
    requires latest { Latest table.now starts.now n latest (bucket identity.now) }
    ensures { result ≡ any (same identity.now) (earlier table.now starts.now n) }
{
    let mut c = latest;
    // From a line to the one that it is linked to, so no `for` over a range or a list.
    while 0 < c {
        let line = c - 1;
        if tags[line] == tag && begins(table, starts[line] as usize, identity) {
            return true;
        }
        c = links[line] as usize;
    }
    false
}
