//! What the judgement promises of every run, on the contract of a function that does nothing else.
ghost use Rattle.std.specs.Prelude.{ℕ, ◌≤◌};
ghost use Rattle.table.specs.Rules.{TaskSet, Checked};
ghost use Rattle.policy.specs.Order.{Order};
ghost use Rattle.policy.specs.Laws.{Lawful};
ghost use Rattle.theory.specs.BusyPeriod.{BusyPeriod, longest_busy_period};
ghost use Rattle.theory.specs.Guarantee.{NeverLonger, Attained, LateExactly, FullLineOverdue, FullLineOverdueItself, NeverFull};

/// For every checked table with a busy period and every lawful order: no response exceeds the worst one; and where the busy period is at most 60,000 ticks, the worst courses give it in an admitted table, and a table is late exactly when some run misses a deadline.
pub fn judgement_holds_in_runs()
    ensures never_longer { (s : TaskSet) (o : Order) (L : ℕ) → Checked s → Lawful s o → BusyPeriod s L → L ≤ longest_busy_period → NeverLonger s o L }
    ensures never_longer_at_all { (s : TaskSet) (o : Order) (L : ℕ) → Checked s → Lawful s o → BusyPeriod s L → NeverLonger s o L }
    ensures attained { (s : TaskSet) (o : Order) (L : ℕ) → Checked s → Lawful s o → BusyPeriod s L → L ≤ longest_busy_period → Attained s o L }
    ensures late_exactly { (s : TaskSet) (o : Order) (L : ℕ) → Checked s → Lawful s o → BusyPeriod s L → L ≤ longest_busy_period → LateExactly s o L }
{}

/// For every checked table, whatever the order: a release refused for a full line finds a deadline of its task already missed; and under a lawful order that admits the table no list of calls meets a full line.
pub fn full_line_needs_a_miss()
    ensures overdue { (s : TaskSet) (o : Order) → Checked s → Lawful s o → FullLineOverdue s o }
    ensures never { (s : TaskSet) (o : Order) (L : ℕ) → Checked s → Lawful s o → BusyPeriod s L → L ≤ longest_busy_period → NeverFull s o L }
    ensures overdue_itself { (s : TaskSet) (o : Order) → Checked s → FullLineOverdueItself s o }
    ensures never_at_all { (s : TaskSet) (o : Order) (L : ℕ) → Checked s → Lawful s o → BusyPeriod s L → NeverFull s o L }
{}
