//! Theorems about the definitions, each on the contract of a function that does nothing else.
ghost use Rattle.std.specs.Prelude.{◌≡◌, ℕ, ◌<◌};
ghost use Rattle.table.specs.Rules.{TaskSet, Checked, task_count};
ghost use Rattle.policy.specs.Laws.{Lawful};
ghost use Rattle.policy.specs.Order.{Order};
ghost use Rattle.theory.specs.BusyPeriod.{BusyPeriod};
ghost use Rattle.theory.specs.Response.{ResponseAt};
ghost use Rattle.theory.specs.Worst.{Worst};

/// A task set has at most one busy period, and each task at most one worst response with its least offset.
pub fn analysis_is_unique()
    ensures busy { (s : TaskSet) (L M : ℕ) → BusyPeriod s L → BusyPeriod s M → L ≡ M }
    ensures worst { (s : TaskSet) (o : Order) (L i r a q b : ℕ) → Worst s o L i r a → Worst s o L i q b → (r ≡ q) × (a ≡ b) }
{}

/// In a checked table with a busy period every offset below it has a response, and each task a worst response: nothing that is said of them is said of nothing.
pub fn analysis_exists()
    ensures response { (s : TaskSet) (o : Order) (L i a : ℕ) → Checked s → Lawful s o → BusyPeriod s L → i < task_count s → a < L → (r : ℕ) × ResponseAt s o i a r }
    ensures worst { (s : TaskSet) (o : Order) (L i : ℕ) → Checked s → Lawful s o → BusyPeriod s L → i < task_count s → (r : ℕ) × (a : ℕ) × Worst s o L i r a }
{}
