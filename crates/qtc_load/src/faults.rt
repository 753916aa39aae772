use qtc_job::{BadJob, ParseFault};
use qtc_outside::LoadFault;

/// Why a job file was not loaded and read.
#[derive(Clone, Copy, Debug, PartialEq, Eq)]
pub enum FileFault {
    /// The grammar refuses it.
    Bad(BadJob),
    /// The source failed.
    Read,
    /// It has more bytes than a job file may have.
    TooLong,
    /// Want of memory.
    Memory,
}

impl From<LoadFault> for FileFault {
    ghost use Rattle.std.specs.Prelude.{◌≡◌};
    ghost use Rattle.qtc_load.specs.Faults.{of_load};

    ghost from_gives = { λ fault result. result ≡ of_load fault };

    fn from(fault: LoadFault) -> FileFault {
        match fault {
            LoadFault::Read => FileFault::Read,
            LoadFault::TooLong => FileFault::TooLong,
            LoadFault::Memory => FileFault::Memory,
        }
    }
}

impl From<ParseFault> for FileFault {
    ghost use Rattle.std.specs.Prelude.{◌≡◌};
    ghost use Rattle.qtc_load.specs.Faults.{of_parse};

    ghost from_gives = { λ fault result. result ≡ of_parse fault };

    fn from(fault: ParseFault) -> FileFault {
        match fault {
            ParseFault::Bad(bad) => FileFault::Bad(bad),
            ParseFault::Memory => FileFault::Memory,
        }
    }
}
