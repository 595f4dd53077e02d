//! Fixed priorities: the lower rank is always ahead.
ghost use Rattle.policy.specs.Orders.{fixed_order};
ghost use Rattle.policy.specs.Shipped.{fixed_lawful};

use crate::compare::{comparable, rank_of, settled_reach};
use crate::job::{Job, Reach};
use crate::ordering::Policy;
use table::Table;

/// Orders jobs by the ranks of their tasks, the lower one ahead; jobs of one task by their releases.
#[derive(Clone, Copy)]
pub struct Fixed;

impl Policy for Fixed {
    ghost meaning = { λ _ s. fixed_order s };

    ghost total = { λ p s checked. (fixed_lawful s checked).total };

    ghost transitive = { λ p s checked. (fixed_lawful s checked).transitive };

    ghost earlier = { λ p s checked. (fixed_lawful s checked).earlier_first };

    ghost range = { λ p s checked. (fixed_lawful s checked).reach_range };

    ghost rule = { λ p s checked. (fixed_lawful s checked).reach_rule };

    fn ahead(&self, table: &Table, first: Job, second: Job) -> bool {
        if !comparable(table, first, second) {
            return false;
        }
        if first.task == second.task {
            return first.release < second.release;
        }
        rank_of(table, first.task) < rank_of(table, second.task)
    }

    fn reach(&self, table: &Table, from: usize, to: usize) -> Reach {
        let asked = if rank_of(table, to) < rank_of(table, from) {
            Reach::Always
        } else {
            Reach::Never
        };
        settled_reach(table, from, to, asked)
    }
}
