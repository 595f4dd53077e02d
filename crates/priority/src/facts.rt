//! The rule of the assignment leaves no choice: the theorem, on the contract of a function that does nothing else.
ghost use Rattle.std.specs.Prelude.{◌≡◌, ℕ};
ghost use Rattle.table.specs.Rules.{TaskSet};
ghost use Rattle.priority.specs.Assignment.{Assigned, Unfilled};

/// A task set has at most one order by the rule, at most one rank that cannot be filled, and never both.
pub fn assignment_is_unique()
    ensures order { (s t u : TaskSet) (L : ℕ) → Assigned s t L → Assigned s u L → t ≡ u }
    ensures rank { (s : TaskSet) (L k m : ℕ) → Unfilled s L k → Unfilled s L m → k ≡ m }
    ensures either { (s t : TaskSet) (L k : ℕ) → Assigned s t L → Unfilled s L k → ⊥ }
{}
