// The key table (document 01, "The key table"): the test that a table is well formed, the list of its line starts
// (document 02, P6), where an identity's line stands, and the lookup of its key.
#![tactic(auto)]

mod checks;
mod classes;
mod distinct;
mod entries;
mod hex;
mod list;
mod scan;

pub use checks::{valid_identity, valid_secret};
pub use entries::{Hit, first_line};
pub use list::{make_list, well_formed};

// A key table as a caller lends it, with the list of its line starts, which is the first `count` of `starts`. Any three
// are allowed: what is no table, or not its list, is refused.
#[derive(Clone, Copy)]
pub struct Table<'a> {
    pub bytes: &'a [u8],
    pub starts: &'a [u32],
    pub count: usize,
}
