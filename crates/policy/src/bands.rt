//! Bands: the tasks numbered below a bound are ahead of the rest, with one policy for them and one for the rest.
ghost use Rattle.std.specs.Prelude.{◌≡◌};
ghost use Rattle.policy.specs.Orders.{bands_order};
ghost use Rattle.policy.specs.Banded.{bands_rule};
ghost use Rattle.std.proofs.Common.{rules};

use crate::compare::{comparable, settled_reach};
use crate::job::{Job, Reach};
use crate::ordering::Policy;
use table::Table;

/// Any two policies as one: the first orders the tasks numbered below `band`, the second the rest.
#[derive(Drop)]
pub struct Bands<P, Q> {
    band: usize,
    first: P,
    second: Q,
}

impl<P, Q> Bands<P, Q> {
    /// The first policy for the tasks numbered below `band`, the second for the rest; any number will do.
    pub fn new(band: usize, first: P, second: Q) -> Bands<P, Q>
        ensures number { result.band ≡ band }
        ensures upper { result.first ≡ first }
        ensures lower { result.second ≡ second }
    {
        Bands {
            band,
            first,
            second,
        }
    }
}

impl<P: Policy, Q: Policy> Policy for Bands<P, Q> {
    ghost meaning = { λ b s. bands_order b.band (P.Policy.meaning b.first s) (Q.Policy.meaning b.second s) };

    ghost total = { Prim.search rules };

    ghost transitive = { Prim.search rules };

    ghost earlier = { Prim.search rules };

    ghost range = { Prim.search rules };

    ghost rule = { λ b s checked. bands_rule s b.band (P.Policy.meaning b.first s) (Q.Policy.meaning b.second s) (P.Policy.rule b.first s checked) (Q.Policy.rule b.second s checked) };

    fn ahead(&self, table: &Table, first: Job, second: Job) -> bool {
        match (first.task < self.band, second.task < self.band) {
            (true, true) => self.first.ahead(table, first, second),
            (false, false) => self.second.ahead(table, first, second),
            (true, false) => comparable(table, first, second),
            (false, true) => false,
        }
    }

    fn reach(&self, table: &Table, from: usize, to: usize) -> Reach {
        match (from < self.band, to < self.band) {
            (true, true) => self.first.reach(table, from, to),
            (false, false) => self.second.reach(table, from, to),
            (true, false) => Reach::Never,
            (false, true) => settled_reach(table, from, to, Reach::Always),
        }
    }
}
