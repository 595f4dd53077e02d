//! First come, first served.
ghost use Rattle.policy.specs.Orders.{arrival_order};
ghost use Rattle.policy.specs.Shipped.{arrival_lawful};

use crate::job::{Job, Reach};
use crate::keys::{keyed_ahead, keyed_reach};
use crate::ordering::Policy;
use table::Table;

/// Orders jobs by their releases; a tie goes to the lower task number.
#[derive(Clone, Copy)]
pub struct Arrival;

// What it shares with Deadline is in `keys`. Two types and no generic one: callers write either name as a value.
impl Policy for Arrival {
    ghost meaning = { λ _ _. arrival_order };

    ghost total = { λ p s checked. (arrival_lawful s checked).total };

    ghost transitive = { λ p s checked. (arrival_lawful s checked).transitive };

    ghost earlier = { λ p s checked. (arrival_lawful s checked).earlier_first };

    ghost range = { λ p s checked. (arrival_lawful s checked).reach_range };

    ghost rule = { λ p s checked. (arrival_lawful s checked).reach_rule };

    fn ahead(&self, table: &Table, first: Job, second: Job) -> bool {
        keyed_ahead(table, first, 0, second, 0)
    }

    fn reach(&self, table: &Table, from: usize, to: usize) -> Reach {
        keyed_reach(table, from, 0, to, 0)
    }
}
