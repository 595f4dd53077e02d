//! The published analyses of fixed priorities and of deadline order, as theorems about the worst responses defined here.
ghost use Rattle.std.specs.Prelude.{ℕ};
ghost use Rattle.table.specs.Rules.{TaskSet, Checked};
ghost use Rattle.theory.specs.BusyPeriod.{BusyPeriod};
ghost use Rattle.theory.specs.FixedPriority.{FixedAsPublished};
ghost use Rattle.theory.specs.DemandCriterion.{CriterionNeeded, DeadlineAsPublished};

/// Under fixed priorities the worst response of every task is the greatest that the published recurrences give, in both modes, for every checked table with a busy period.
pub fn fixed_priority_is_the_recurrence()
    ensures { (s : TaskSet) (L : ℕ) → Checked s → BusyPeriod s L → FixedAsPublished s L }
{}

/// Deadline order admits a checked table with a busy period exactly when the demand criterion holds, in both modes.
pub fn deadline_order_is_the_criterion()
    ensures { (s : TaskSet) (L : ℕ) → Checked s → BusyPeriod s L → DeadlineAsPublished s L }
{}

/// Every lawful order that admits a checked table needs the demand criterion.
pub fn criterion_is_needed()
    ensures { (s : TaskSet) (L : ℕ) → Checked s → BusyPeriod s L → CriterionNeeded s L }
{}
