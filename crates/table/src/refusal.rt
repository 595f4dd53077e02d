//! Every refusal of the planner, with its number, its layer and what goes with it.
ghost use Rattle.std.specs.Prelude.{◌≡◌};
ghost use Rattle.table.specs.Refusals.{refusal_number, refusal_layer, refusal_place, refusal_rank, refusal_task};

/// Which part of the planner refused.
#[derive(Clone, Copy, Debug, PartialEq, Eq)]
pub enum Layer {
    /// A table file: refusals 1 to 7.
    Reading,
    /// Judgement, report, priority order and worst course: 8 to 11, and 12 of a worst course.
    Judging,
    /// The calls of a run: 12 to 15.
    Running,
}

/// Why a call was refused. A place is a byte of the input, counted from 0.
#[derive(Clone, Copy, Debug, PartialEq, Eq)]
pub enum Refusal {
    /// The input ends inside the next mark or field; the place is its length.
    Ended { place: usize },
    /// The mark is not the expected one.
    WrongMark { place: usize },
    /// A header byte is out of its range.
    HeaderRange { place: usize },
    /// A task field is out of its range.
    TaskRange { place: usize },
    /// The rank stands in an earlier record.
    RankTaken { place: usize },
    /// A name byte is outside A-Z and 0-9.
    NameByte { place: usize },
    /// A byte follows the end record.
    Trailing { place: usize },
    /// Fewer rows were lent than there are tasks.
    FewRows,
    /// Fewer than 1,024 output bytes were lent.
    ShortOutput,
    /// There is no busy period of up to 60,000 ticks.
    NoBusyPeriod,
    /// No unplaced task can take this rank.
    RankUnfilled { rank: usize },
    /// Worst case asked for a task that the table does not have.
    NoTaskToJudge { task: usize },
    /// A run was asked for a task that the table does not have.
    NoTaskToRun { task: usize },
    /// A release came less than T ticks after the last accepted one of its task.
    TooSoon { task: usize },
    /// A release found 8 jobs of its task waiting.
    QueueFull { task: usize },
    /// A tick came at the last time.
    TimeOver,
}

impl Refusal {
    /// The number of the refusal, 1 to 15.
    // A method, not `u8::from`: it is one of the five columns of the list of refusals, and two refusals share a number.
    pub fn number(self) -> u8
        ensures { result ≡ refusal_number self }
    {
        match self {
            Refusal::Ended { .. } => 1,
            Refusal::WrongMark { .. } => 2,
            Refusal::HeaderRange { .. } => 3,
            Refusal::TaskRange { .. } => 4,
            Refusal::RankTaken { .. } => 5,
            Refusal::NameByte { .. } => 6,
            Refusal::Trailing { .. } => 7,
            Refusal::FewRows => 8,
            Refusal::ShortOutput => 9,
            Refusal::NoBusyPeriod => 10,
            Refusal::RankUnfilled { .. } => 11,
            Refusal::NoTaskToJudge { .. } | Refusal::NoTaskToRun { .. } => 12,
            Refusal::TooSoon { .. } => 13,
            Refusal::QueueFull { .. } => 14,
            Refusal::TimeOver => 15,
        }
    }

    /// Which part of the planner refused.
    pub fn layer(self) -> Layer
        ensures { result ≡ refusal_layer self }
    {
        match self {
            Refusal::Ended { .. }
            | Refusal::WrongMark { .. }
            | Refusal::HeaderRange { .. }
            | Refusal::TaskRange { .. }
            | Refusal::RankTaken { .. }
            | Refusal::NameByte { .. }
            | Refusal::Trailing { .. } => Layer::Reading,
            Refusal::FewRows
            | Refusal::ShortOutput
            | Refusal::NoBusyPeriod
            | Refusal::RankUnfilled { .. }
            | Refusal::NoTaskToJudge { .. } => Layer::Judging,
            Refusal::NoTaskToRun { .. }
            | Refusal::TooSoon { .. }
            | Refusal::QueueFull { .. }
            | Refusal::TimeOver => Layer::Running,
        }
    }

    /// The place in the input, for a refusal of reading; none for any other.
    pub fn place(self) -> Option<usize>
        ensures { result ≡ refusal_place self }
    {
        match self {
            Refusal::Ended { place }
            | Refusal::WrongMark { place }
            | Refusal::HeaderRange { place }
            | Refusal::TaskRange { place }
            | Refusal::RankTaken { place }
            | Refusal::NameByte { place }
            | Refusal::Trailing { place } => Some(place),
            _ => None,
        }
    }

    /// The rank that could not be filled; none for any other refusal.
    pub fn rank(self) -> Option<usize>
        ensures { result ≡ refusal_rank self }
    {
        match self {
            Refusal::RankUnfilled { rank } => Some(rank),
            _ => None,
        }
    }

    /// The task number given, for a refusal that goes with one; none for any other.
    pub fn task(self) -> Option<usize>
        ensures { result ≡ refusal_task self }
    {
        match self {
            Refusal::NoTaskToJudge { task }
            | Refusal::NoTaskToRun { task }
            | Refusal::TooSoon { task }
            | Refusal::QueueFull { task } => Some(task),
            _ => None,
        }
    }
}
