//! Earliest deadline first.
ghost use Rattle.policy.specs.Orders.{deadline_order};
ghost use Rattle.policy.specs.Shipped.{deadline_lawful};

use crate::compare::deadline_of;
use crate::job::{Job, Reach};
use crate::keys::{keyed_ahead, keyed_reach};
use crate::ordering::Policy;
use table::Table;

/// Orders jobs by their absolute deadlines; a tie goes to the lower task number.
#[derive(Clone, Copy)]
pub struct Deadline;

// What it shares with Arrival is in `keys`. Two types and no generic one: callers write either name as a value.
impl Policy for Deadline {
    ghost meaning = { λ _ s. deadline_order s };

    ghost total = { λ p s checked. (deadline_lawful s checked).total };

    ghost transitive = { λ p s checked. (deadline_lawful s checked).transitive };

    ghost earlier = { λ p s checked. (deadline_lawful s checked).earlier_first };

    ghost range = { λ p s checked. (deadline_lawful s checked).reach_range };

    ghost rule = { λ p s checked. (deadline_lawful s checked).reach_rule };

    fn ahead(&self, table: &Table, first: Job, second: Job) -> bool {
        let mine = deadline_of(table, first.task);
        let other = deadline_of(table, second.task);
        keyed_ahead(table, first, mine, second, other)
    }

    fn reach(&self, table: &Table, from: usize, to: usize) -> Reach {
        let mine = deadline_of(table, from);
        let other = deadline_of(table, to);
        keyed_reach(table, from, mine, to, other)
    }
}
