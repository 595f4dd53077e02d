//! The scheduling mode and the policy code, with the numbers and words that formats and output use.
ghost use Rattle.std.specs.Prelude.{◌≡◌, ◌++◌, Some, codes, decimal};
ghost use Rattle.table.specs.Words.{mode_word, policy_word};
ghost use Rattle.table.specs.Codes.{mode_coded, policy_coded, Decodes};

use std::error::Error;
use std::fmt;

/// Whether a begun job may be displaced by one that is ahead of it.
#[derive(Clone, Copy, Debug, PartialEq, Eq)]
pub enum Mode {
    /// 0, "holding": a begun job runs until it is finished.
    NonPreemptive,
    /// 1, "displacing": at each tick the job ahead of all runs.
    Preemptive,
}

/// Which of the shipped ordering policies a table file asks for.
#[derive(Clone, Copy, Debug, PartialEq, Eq)]
pub enum PolicyCode {
    /// 1: the lower rank is ahead.
    Fixed,
    /// 2: the earlier absolute deadline is ahead.
    Deadline,
    /// 3: the earlier release is ahead.
    Arrival,
    /// 4: Fixed for the tasks below the band, ahead of Deadline for the rest.
    Bands,
}

/// A byte that stands for no mode, or for no policy.
#[derive(Clone, Copy, Debug, PartialEq, Eq)]
pub struct UnknownCode(pub u8);

impl fmt::Display for UnknownCode {
    ghost output = { λ e. Some (codes "nothing has the code " ++ decimal e.0) };

    fn fmt<W: fmt::Write>(&self, f: &mut fmt::Formatter<W>) -> fmt::Result {
        write!(f, "nothing has the code {}", self.0)
    }
}

impl Error for UnknownCode {}

/// The mode of a header byte: 0 or 1.
impl TryFrom<u8> for Mode {
    type Error = UnknownCode;

    ghost try_from_gives = { Decodes mode_coded };

    fn try_from(code: u8) -> Result<Self, UnknownCode> {
        match code {
            0 => Ok(Mode::NonPreemptive),
            1 => Ok(Mode::Preemptive),
            _ => Err(UnknownCode(code)),
        }
    }
}

impl Mode {
    /// The word that a report prints.
    // Bytes, not `Display`: a report is written into lent bytes, and its clauses need the word's bytes.
    pub fn word(self) -> &'static [u8]
        ensures { result.now ≡ mode_word self }
    {
        match self {
            Mode::NonPreemptive => b"holding",
            Mode::Preemptive => b"displacing",
        }
    }
}

/// The policy of a header byte: 1 to 4.
impl TryFrom<u8> for PolicyCode {
    type Error = UnknownCode;

    ghost try_from_gives = { Decodes policy_coded };

    fn try_from(code: u8) -> Result<Self, UnknownCode> {
        match code {
            1 => Ok(PolicyCode::Fixed),
            2 => Ok(PolicyCode::Deadline),
            3 => Ok(PolicyCode::Arrival),
            4 => Ok(PolicyCode::Bands),
            _ => Err(UnknownCode(code)),
        }
    }
}

impl PolicyCode {
    /// The word that a report prints.
    // Bytes, not `Display`: a report is written into lent bytes, and its clauses need the word's bytes.
    pub fn word(self) -> &'static [u8]
        ensures { result.now ≡ policy_word self }
    {
        match self {
            PolicyCode::Fixed => b"fixed",
            PolicyCode::Deadline => b"deadline",
            PolicyCode::Arrival => b"arrival",
            PolicyCode::Bands => b"bands",
        }
    }
}
