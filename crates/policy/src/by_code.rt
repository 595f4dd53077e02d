//! The policy that a table's own code asks for.
ghost use Rattle.policy.specs.Chosen.{chosen_order};
ghost use Rattle.policy.specs.Shipped.{chosen_lawful};

use crate::arrival::Arrival;
use crate::bands::Bands;
use crate::deadline::Deadline;
use crate::fixed::Fixed;
use crate::job::{Job, Reach};
use crate::ordering::Policy;
use table::{PolicyCode, Table};

/// Orders jobs as the code of their table says: Fixed, Deadline, Arrival, or Bands with Fixed over Deadline and the table's band.
#[derive(Clone, Copy)]
pub struct ByCode;

// Two matches: the policies are four types, and a function may not hand one of them out as a dyn value.
impl Policy for ByCode {
    ghost meaning = { λ _ s. chosen_order s };

    ghost total = { λ p s checked. (chosen_lawful s checked).total };

    ghost transitive = { λ p s checked. (chosen_lawful s checked).transitive };

    ghost earlier = { λ p s checked. (chosen_lawful s checked).earlier_first };

    ghost range = { λ p s checked. (chosen_lawful s checked).reach_range };

    ghost rule = { λ p s checked. (chosen_lawful s checked).reach_rule };

    fn ahead(&self, table: &Table, first: Job, second: Job) -> bool {
        match table.policy() {
            PolicyCode::Fixed => Fixed.ahead(table, first, second),
            PolicyCode::Deadline => Deadline.ahead(table, first, second),
            PolicyCode::Arrival => Arrival.ahead(table, first, second),
            PolicyCode::Bands => Bands::new(table.band(), Fixed, Deadline).ahead(
                table, first, second,
            ),
        }
    }

    fn reach(&self, table: &Table, from: usize, to: usize) -> Reach {
        match table.policy() {
            PolicyCode::Fixed => Fixed.reach(table, from, to),
            PolicyCode::Deadline => Deadline.reach(table, from, to),
            PolicyCode::Arrival => Arrival.reach(table, from, to),
            PolicyCode::Bands => Bands::new(table.band(), Fixed, Deadline).reach(table, from, to),
        }
    }
}
