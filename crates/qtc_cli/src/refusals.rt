ghost use Rattle.std.specs.Prelude.{◌≡◌, IfOk};
ghost use Rattle.qtc_cli.specs.Refusals.{line_of, Hears, SaysFor};
ghost use Rattle.qtc_cli.specs.declared.refusals.Refusal.TheVariants.{Bad};

use qtc_base::{Bytes, NoMemory, decimal};
use qtc_job::BadJob;
use qtc_load::FileFault;
use qtc_outside::{LoadFault, Sink, write_all};
use qtc_run::RunFault;
use std::alloc::Global;

const OUT_OF_MEMORY: &[u8] = b"qtc: out of memory\n";

/// Why a call didn't write all that it was asked for.
#[derive(Clone, Copy, Debug, PartialEq, Eq)]
pub enum Refusal {
    /// The words have no form.
    Usage,
    /// The grammar refuses the job file.
    Bad(BadJob),
    /// The source failed.
    ReadFault,
    /// The sink failed.
    WriteFault,
    /// Want of memory.
    Memory,
    /// The job file, a text, all texts or all items pass a limit.
    TooLarge,
    /// The job file has a job that isn't run so far.
    NotYet,
}

impl From<NoMemory> for Refusal {
    ghost use Rattle.std.specs.Prelude.{◌≡◌};
    ghost use Rattle.qtc_cli.specs.declared.refusals.Refusal.TheVariants.{Memory};

    ghost from_gives = { λ _ refusal. refusal ≡ Memory };

    fn from(_fault: NoMemory) -> Refusal {
        Refusal::Memory
    }
}

impl From<LoadFault> for Refusal {
    ghost use Rattle.std.specs.Prelude.{◌≡◌};
    ghost use Rattle.qtc_cli.specs.Refusals.{load_refusal};

    ghost from_gives = { λ fault refusal. refusal ≡ load_refusal fault };

    fn from(fault: LoadFault) -> Refusal {
        match fault {
            LoadFault::Read => Refusal::ReadFault,
            LoadFault::TooLong => Refusal::TooLarge,
            LoadFault::Memory => Refusal::Memory,
        }
    }
}

impl From<FileFault> for Refusal {
    ghost use Rattle.std.specs.Prelude.{◌≡◌};
    ghost use Rattle.qtc_cli.specs.Refusals.{file_refusal};

    ghost from_gives = { λ fault refusal. refusal ≡ file_refusal fault };

    fn from(fault: FileFault) -> Refusal {
        match fault {
            FileFault::Bad(bad) => Refusal::Bad(bad),
            FileFault::Read => Refusal::ReadFault,
            FileFault::TooLong => Refusal::TooLarge,
            FileFault::Memory => Refusal::Memory,
        }
    }
}

impl From<RunFault> for Refusal {
    ghost use Rattle.std.specs.Prelude.{◌≡◌};
    ghost use Rattle.qtc_cli.specs.Refusals.{run_refusal};

    ghost from_gives = { λ fault refusal. refusal ≡ run_refusal fault };

    fn from(fault: RunFault) -> Refusal {
        match fault {
            RunFault::TooLarge { .. } => Refusal::TooLarge,
            RunFault::Memory => Refusal::Memory,
        }
    }
}

impl Refusal {
    ghost use Rattle.qtc_cli.specs.Refusals.{status_of};

    /// The status that the program ends with.
    pub fn status(self) -> u8
        ensures { result ≡ status_of self }
    {
        match self {
            Refusal::Usage => 2,
            Refusal::Bad(_) => 3,
            Refusal::ReadFault => 4,
            Refusal::WriteFault => 5,
            Refusal::Memory => 6,
            Refusal::TooLarge => 7,
            Refusal::NotYet => 8,
        }
    }

    /// Writes the line that the user reads as far as the sink takes it, and says what was told: itself, or want
    /// of memory in the place of a bad job file, whose line takes memory.
    pub fn tell<E: Sink>(self, alloc: Global, err: &mut E) -> Refusal
        ensures said { SaysFor self result }
        ensures hears { Hears (line_of result) (E.intake err.old) (E.intake err.new) }
    {
        match self {
            Refusal::Bad(bad) => tell_bad(alloc, bad, err),
            Refusal::Usage => say(
                self,
                b"qtc: usage: run [--workers N] JOB, check JOB, sample [--workers W] N\n",
                err,
            ),
            Refusal::ReadFault => say(self, b"qtc: read fault\n", err),
            Refusal::WriteFault => say(self, b"qtc: write fault\n", err),
            Refusal::Memory => say(self, OUT_OF_MEMORY, err),
            Refusal::TooLarge => say(self, b"qtc: too large\n", err),
            Refusal::NotYet => say(self, b"qtc: not yet\n", err),
        }
    }
}

/// Tells a bad job file, or that memory lacks for its line.
fn tell_bad<E: Sink>(alloc: Global, bad: BadJob, err: &mut E) -> Refusal
    ensures said { SaysFor (Bad bad) result }
    ensures hears { Hears (line_of result) (E.intake err.old) (E.intake err.new) }
{
    match bad_line(alloc, bad) {
        Ok(line) => say(Refusal::Bad(bad), line.as_slice(), err),
        Err(_) => say(Refusal::Memory, OUT_OF_MEMORY, err),
    }
}

/// Writes the line of a refusal as far as the sink takes it.
fn say<E: Sink>(refusal: Refusal, line: &[u8], err: &mut E) -> Refusal
    requires { line.now ≡ line_of refusal }
    ensures same { result ≡ refusal }
    ensures hears { Hears (line_of refusal) (E.intake err.old) (E.intake err.new) }
{
    let _ = write_all(err, line);
    refusal
}

/// The line for a job file that is refused at a place.
fn bad_line(alloc: Global, bad: BadJob) -> Result<Bytes, NoMemory>
    ensures { IfOk result (λ line. line ≡ line_of (Bad bad)) }
{
    let mut line = Bytes::from_slice(alloc, b"qtc: bad job file: line ")?;
    decimal(u128::from(bad.line), &mut line)?;
    line.append(b" code ")?;
    decimal(u128::from(bad.code), &mut line)?;
    line.append(b"\n")?;
    Ok(line)
}
