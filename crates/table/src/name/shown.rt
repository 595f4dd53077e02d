//! A name as text.
ghost use Rattle.std.specs.Prelude.{Some};
ghost use Rattle.table.specs.Content.{letters};

use super::Name;
use std::fmt;

impl fmt::Display for Name {
    ghost output = { λ name. Some (letters name) };

    fn fmt<W: fmt::Write>(&self, f: &mut fmt::Formatter<W>) -> fmt::Result {
        f.write_str(self.as_str())
    }
}
