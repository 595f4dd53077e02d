//! Bands over bands: three of the shipped policies as one.
ghost use Rattle.std.specs.Prelude.{◌≡◌};
ghost use Rattle.table.specs.Model.{content};
ghost use Rattle.policy.specs.Answers.{ahead_answer};
ghost use Rattle.policy.specs.Orders.{fixed_order, deadline_order, arrival_order, bands_order};

use crate::arrival::Arrival;
use crate::bands::Bands;
use crate::deadline::Deadline;
use crate::fixed::Fixed;
use crate::job::Job;
use crate::ordering::Policy;
use table::Table;

/// Whether the first job is ahead under Fixed below task `high`, Deadline from there to `low`, and Arrival for the rest.
pub fn pile_ahead(table: &Table, high: usize, low: usize, first: Job, second: Job) -> bool
    ensures { result ≡ ahead_answer (content table.now) (bands_order high (fixed_order (content table.now)) (bands_order low (deadline_order (content table.now)) arrival_order)) first second }
{
    let rest = Bands::new(low, Deadline, Arrival);
    let pile = Bands::new(high, Fixed, rest);
    pile.ahead(table, first, second)
}
