// The starts of the lines behind one that was changed or taken out.
ghost use Rattle.std.specs.Prelude.{◌≡◌, ◌≤◌, length};
ghost use Rattle.table_edits.specs.Inner.{restarted, Starting};

// The starts from the `from`-th on come to the place `to`, each as far behind `new` as it was behind `old`.
pub(crate) fn follow(
    starts: &mut [u32],
    from: usize,
    count: usize,
    to: usize,
    old: usize,
    new: usize,
)
    requires to_le_from { to ≤ from }
    requires from_le_count { from ≤ count }
    requires count_in_bounds { count ≤ length starts.old }
    requires bound { old ≤ 65536 }
    requires bound_2 { new ≤ 131072 }
    requires starting { Starting old 65536 from count starts.old }
    ensures { starts.new ≡ restarted from count to old new starts.old }
{
    let less = old as u32;
    let more = new as u32;
    starts.copy_within(from..count, to);
    for start in &mut starts[to..to + (count - from)] {
        *start = *start - less + more;
    }
}
