// The statuses, their numbers and the line that each prints.
ghost use Rattle.std.specs.Prelude.{◌≡◌, ◌≤◌, ◌<◌, ◌+◌, ◌++◌, ◌∷◌, [], decimal, length};
ghost use Rattle.tso_status.specs.Statuses.{code_of, line_of, placed};

use arrayvec::ArrayVec;
use itoa::Buffer;

/// The most bytes that the line of a status may have.
pub const LINE_SIZE: usize = 64;

/// How a call of `run` ended. A place `at` is a byte of the C file, counted from 0; a `line` is
/// counted from 1.
#[derive(Clone, Copy, Debug, PartialEq, Eq)]
pub enum Status {
    /// The command's work is done.
    Done,
    /// The words are no command.
    Usage,
    /// A file that the command reads is missing or could not be read.
    ReadFault,
    /// What the command writes could not be written.
    WriteFault,
    /// A file that the command reads has more bytes than it may have.
    TooLong,
    /// The C file is not of the grammar: no file goes on at this byte as it does.
    Syntax { at: u32 },
    /// The token at this byte of the C file nests too deep.
    TooDeep { at: u32 },
    /// The C file breaks this rule of types at this byte: the first that it breaks, in its order.
    Types { rule: u8, at: u32 },
    /// The C file breaks no rule, but passes this count at this byte: the first that it passes.
    TooLarge { count: u8, at: u32 },
    /// Memory lacked.
    NoMemory,
    /// The assembly file is no assembly text: this line is its first bad one.
    BadText { line: u64 },
    /// The schedule file is no schedule: this line is its first bad one.
    BadSchedule { line: u64 },
    /// The step of this line of the schedule is not enabled: the first such line.
    NotARun { line: u64 },
    /// The C file is a program, but of no form that is compiled so far.
    NotBuilt,
}

// Some words as a line.
fn worded(words: &[u8]) -> ArrayVec<u8, LINE_SIZE>
    requires { length words.now < 64 }
    ensures { result.items ≡ words.now ++ 10 ∷ [] }
{
    let mut line = ArrayVec::new();
    line.try_extend_from_slice(words).unwrap();
    line.push(b'\n');
    line
}

// Some words and a number as a line.
fn numbered(words: &[u8], number: u64) -> ArrayVec<u8, LINE_SIZE>
    requires { length words.now ≤ 20 }
    ensures { result.items ≡ words.now ++ (decimal number ++ 10 ∷ []) }
{
    let mut digits = Buffer::new();
    let mut line = ArrayVec::new();
    line.try_extend_from_slice(words).unwrap();
    line.try_extend_from_slice(digits.format(number).as_bytes())
        .unwrap();
    line.push(b'\n');
    line
}

// Some words, a number and the byte of a place as a line.
fn placed(words: &[u8], which: u8, at: u32) -> ArrayVec<u8, LINE_SIZE>
    requires { length words.now ≤ 20 }
    ensures { result.items ≡ placed words.now which at }
{
    let mut digits = Buffer::new();
    let mut line = ArrayVec::new();
    line.try_extend_from_slice(words).unwrap();
    line.try_extend_from_slice(digits.format(which).as_bytes())
        .unwrap();
    line.try_extend_from_slice(b", byte ").unwrap();
    line.try_extend_from_slice(digits.format(at).as_bytes())
        .unwrap();
    line.push(b'\n');
    line
}

impl Status {
    /// The number with which the program ends.
    pub fn code(&self) -> u8
        ensures { result ≡ code_of self.now }
    {
        match self {
            Status::Done => 0,
            Status::Usage => 1,
            Status::ReadFault => 2,
            Status::WriteFault => 3,
            Status::TooLong => 4,
            Status::Syntax { .. } => 5,
            Status::TooDeep { .. } => 6,
            Status::Types { .. } => 7,
            Status::TooLarge { .. } => 8,
            Status::NoMemory => 9,
            Status::BadText { .. } => 10,
            Status::BadSchedule { .. } => 11,
            Status::NotARun { .. } => 12,
            Status::NotBuilt => 13,
        }
    }

    /// The line that the status prints, with its LF: nothing where it is Done. That of `NotARun`
    /// comes behind the lines of the replay.
    pub fn line(&self) -> ArrayVec<u8, LINE_SIZE>
        ensures { result.items ≡ line_of self.now }
    {
        match self {
            Status::Done => ArrayVec::new(),
            Status::Usage => worded(b"usage"),
            Status::ReadFault => worded(b"read fault"),
            Status::WriteFault => worded(b"write fault"),
            Status::TooLong => worded(b"too long"),
            Status::Syntax { at } => numbered(b"syntax: byte ", u64::from(*at)),
            Status::TooDeep { at } => numbered(b"too deep: byte ", u64::from(*at)),
            Status::Types { rule, at } => placed(b"types: rule ", *rule, *at),
            Status::TooLarge { count, at } => placed(b"too large: count ", *count, *at),
            Status::NoMemory => worded(b"no memory"),
            Status::BadText { line } => numbered(b"bad text: line ", *line),
            Status::BadSchedule { line } => numbered(b"bad schedule: line ", *line),
            Status::NotARun { line } => numbered(b"not a run: line ", *line),
            Status::NotBuilt => worded(b"not built"),
        }
    }
}
