//! A task's name: 1 to 8 of the characters A-Z and 0-9.
ghost use Rattle.std.specs.Prelude.{◌≡◌, ◌≤◌, true, length, take};
ghost use Rattle.table.specs.Sporadic.{name_in_range};

/// The most letters that a name has.
pub(crate) const MOST_LETTERS: usize = 8;

/// A name that keeps its rules: the first `len` of `bytes`.
// A buffer with its length: there is no heap, and a name is `Copy`. The kit's `ArrayString` proves here, but not `tablefile::read_table`
// above it: the checker then says that it cannot build its plan for `Task`.
// No `Model`: the letters forget the bytes behind `len`, so they give no name back, and `Copy` needs that.
#[derive(Clone, Copy)]
pub struct Name {
    bytes: [u8; MOST_LETTERS],
    len: usize,
    ghost room: { length bytes ≡ 8 },
    ghost few: { len ≤ 8 },
    ghost rules: { name_in_range (take len bytes) ≡ true },
}

pub mod letters;
mod shown;
