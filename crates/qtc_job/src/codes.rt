ghost use Rattle.std.specs.Prelude.{◌≡◌, ℕ, List as PlainList, [], ◌++◌, ◌<◌, nat_lt, length, None, OnOk};
ghost use Rattle.qtc_base.specs.Words.{words_left};
ghost use Rattle.qtc_job.specs.Answers.{Gives, IsFault, IsLeast, IsLeastSoFar};
ghost use Rattle.qtc_job.specs.Codes.{where_};

use qtc_base::{NoMemory, Words};

// The codes, as docs/JOB_FILES.md has them.
pub const UNKNOWN_WORD: u32 = 1;

pub const ENDS_EARLY: u32 = 2;

pub const NO_NUMBER: u32 = 3;

pub const OUT_OF_RANGE: u32 = 4;

pub const REPEATED: u32 = 5;

pub const NO_EARLIER_JOB: u32 = 6;

pub const NAME_REPEATED: u32 = 7;

pub const NO_INPUT: u32 = 8;

pub const NOT_ONE_FUNCTION: u32 = 9;

pub const ORDER_WITHOUT_FOLD: u32 = 10;

pub const TOO_LONG: u32 = 11;

pub const TOO_MANY_JOBS: u32 = 12;

pub const MORE_WORDS: u32 = 13;

pub const NO_LITERAL: u32 = 14;

pub const NO_NAME: u32 = 15;

pub const MISPLACED: u32 = 16;

pub const CHAIN_TOO_LONG: u32 = 17;

/// Why a line was not read.
#[derive(Clone, Copy)]
pub enum LineFault {
    /// The least of its codes.
    Wrong(u32),
    /// Want of memory.
    Memory,
}

impl From<NoMemory> for LineFault {
    ghost use Rattle.std.specs.Prelude.{◌≡◌};
    ghost use Rattle.qtc_job.specs.declared.codes.LineFault.TheVariants.{Memory};

    ghost from_gives = { λ _ fault. fault ≡ Memory };

    fn from(_fault: NoMemory) -> LineFault {
        LineFault::Memory
    }
}

/// The least of this code and another, where there is one.
pub fn least_with(a: u32, code: Option<u32>) -> u32
    ensures { (m n : PlainList ℕ) → IsLeast m a → IsLeastSoFar n code → IsLeast (m ++ n) result }
{
    match code {
        Some(b) => a.min(b),
        None => a,
    }
}

/// The least of two codes.
pub fn least(a: Option<u32>, b: Option<u32>) -> Option<u32>
    ensures { (m n : PlainList ℕ) → IsLeastSoFar m a → IsLeastSoFar n b → IsLeastSoFar (m ++ n) result }
{
    match a {
        Some(a) => Some(least_with(a, b)),
        None => b,
    }
}

/// The fault of a line that may have this code too.
fn fault_with(fault: LineFault, code: Option<u32>) -> LineFault
    ensures { (m n : PlainList ℕ) → IsFault m fault → IsLeastSoFar n code → IsFault (m ++ n) result }
{
    match fault {
        LineFault::Wrong(a) => LineFault::Wrong(least_with(a, code)),
        LineFault::Memory => LineFault::Memory,
    }
}

/// The fault of a line of which this was read, beside this other fault.
pub fn either<T: Drop>(read: Result<T, LineFault>, other: LineFault) -> LineFault
    ensures { (codes more : PlainList ℕ) (meant : T) → Gives codes meant read → IsFault more other
        → IsFault (codes ++ more) result }
{
    match other {
        LineFault::Memory => LineFault::Memory,
        LineFault::Wrong(code) => match read {
            Ok(_) => other,
            Err(fault) => fault_with(fault, Some(code)),
        },
    }
}

/// What was read, unless this code of the line is wrong too.
pub fn with_code<T: Drop>(read: Result<T, LineFault>, code: Option<u32>) -> Result<T, LineFault>
    ensures clean { OnOk result (code ≡ None) }
    ensures gives { (codes more : PlainList ℕ) (meant : T) → Gives codes meant read → IsLeastSoFar more code
        → Gives (codes ++ more) meant result }
{
    match read {
        Err(fault) => Err(fault_with(fault, code)),
        Ok(value) => match code {
            Some(b) => Err(LineFault::Wrong(b)),
            None => Ok(value),
        },
    }
}

/// What was read, where no word is left.
pub fn ended<T: Drop>(read: Result<T, LineFault>, rest: &mut Words) -> Result<T, LineFault>
    ensures { (codes : PlainList ℕ) (meant : T) → Gives codes meant read
        → Gives (codes ++ where_ (nat_lt 0 (length (words_left rest.old))) 13) meant result }
{
    let code = match rest.next() {
        Some(_) => Some(MORE_WORDS),
        None => None,
    };
    with_code(read, code)
}
