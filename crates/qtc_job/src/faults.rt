use qtc_base::NoMemory;

/// Where a job file is refused: the line, from 1, and the code of what is wrong with it.
#[derive(Clone, Copy, Debug, PartialEq, Eq)]
pub struct BadJob {
    pub line: u32,
    pub code: u32,
}

/// Why a job file was not read.
#[derive(Clone, Copy, Debug, PartialEq, Eq)]
pub enum ParseFault {
    /// The grammar refuses it.
    Bad(BadJob),
    /// Want of memory.
    Memory,
}

impl From<NoMemory> for ParseFault {
    ghost use Rattle.std.specs.Prelude.{◌≡◌};
    ghost use Rattle.qtc_job.specs.declared.faults.ParseFault.TheVariants.{Memory};

    ghost from_gives = { λ _ fault. fault ≡ Memory };

    fn from(_fault: NoMemory) -> ParseFault {
        ParseFault::Memory
    }
}
