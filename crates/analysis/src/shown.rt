//! A verdict as text.
ghost use Rattle.std.specs.Prelude.{Some};
ghost use Rattle.analysis.specs.Shown.{verdict_text};

use crate::rows::Verdict;
use std::fmt;

impl fmt::Display for Verdict {
    ghost output = { λ verdict. Some (verdict_text verdict) };

    fn fmt<W: fmt::Write>(&self, f: &mut fmt::Formatter<W>) -> fmt::Result {
        f.write_str(match self {
            Verdict::Admitted => "admitted",
            Verdict::Late { task: _ } => "late",
        })
    }
}
