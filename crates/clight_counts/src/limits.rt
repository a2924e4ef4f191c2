//! What is counted, and the first count that a file passes.

ghost use Rattle.std.specs.Prelude.{◌≡◌, [], nat_lt};
ghost use Rattle.clight_meaning.specs.Counts.{passed_if};
ghost use Rattle.clight_counts.specs.PassedOf.{number_of, most_of, Keeps};

use tso_words::NoMemory;

/// What is counted, each with the most that a file may have of it.
#[derive(Clone, Copy, PartialEq, Eq, Debug)]
pub enum Count {
    /// Functions that the file defines: 4,096.
    Functions,
    /// Parameters of a function: 64.
    Parameters,
    /// Bytes of a function's parameters and locals: 65,536.
    Bytes,
    /// Nodes of a function: 8,000.
    Nodes,
    /// Labels of a `switch`: 1,024.
    Labels,
    /// Nodes of the file: 80,000.
    FileNodes,
    /// Bytes of the file's objects: 16,777,216.
    GlobalBytes,
}

/// A count that a file passes, and the byte of the file at which it does.
#[derive(Clone, Copy, PartialEq, Eq, Debug)]
pub struct Passed {
    pub count: Count,
    pub at: u32,
}

/// Why a file without faults is not taken.
#[derive(Clone, Copy, PartialEq, Eq, Debug)]
pub enum Excess {
    /// The first count that it passes.
    Passed(Passed),
    NoMemory,
}

impl From<NoMemory> for Excess {
    ghost use Rattle.std.specs.Prelude.{◌≡◌};
    ghost use Rattle.clight_counts.specs.declared.limits.Excess.{Excess};

    ghost from_gives = { λ _ r. r ≡ Excess.NoMemory };

    fn from(_: NoMemory) -> Excess {
        Excess::NoMemory
    }
}

impl Count {
    /// The number of the count, from 1 on.
    pub fn number(self) -> u8
        ensures { result ≡ number_of self }
    {
        match self {
            Count::Functions => 1,
            Count::Parameters => 2,
            Count::Bytes => 3,
            Count::Nodes => 4,
            Count::Labels => 5,
            Count::FileNodes => 6,
            Count::GlobalBytes => 7,
        }
    }

    /// The most that a file may have of it.
    pub fn most(self) -> usize
        ensures { result ≡ most_of self }
    {
        match self {
            Count::Functions => 4_096,
            Count::Parameters => 64,
            Count::Bytes => 65_536,
            Count::Nodes => 8_000,
            Count::Labels => 1_024,
            Count::FileNodes => 80_000,
            Count::GlobalBytes => 16_777_216,
        }
    }

    /// The count at this place, unless the file has no more of it than it may.
    pub fn kept(self, counted: usize, at: u32) -> Result<(), Excess>
        ensures { Keeps (passed_if (nat_lt (most_of self) counted) (number_of self) at []) result }
    {
        if counted <= self.most() {
            Ok(())
        } else {
            Err(Excess::Passed(Passed { count: self, at }))
        }
    }
}
