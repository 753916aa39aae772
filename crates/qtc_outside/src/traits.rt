ghost use Rattle.std.specs.Prelude.{◌<◌, length, Some, IsSome, IfOk, OnOk, OnErr};
ghost use Rattle.qtc_outside.specs.Source.{Source, Chooses, Faults, Gives};
ghost use Rattle.qtc_outside.specs.Intake.{Intake, TakesFront, TakesNothing};

use qtc_base::Bytes;

/// The outside did not do what it was asked; the object's count of faults rose.
#[derive(Clone, Copy, Debug, PartialEq, Eq)]
pub struct Failed;

/// A source of texts by name. One text is chosen at a time, and read from its beginning to its end.
pub trait Texts {
    /// All that contracts see of the source.
    ghost source: { Self → Source };

    /// Goes to the beginning of the text under `name`. Failed where it can't be read, as where no text has
    /// that name; then nothing is chosen.
    fn choose(&mut self, name: Bytes) -> Result<(), Failed>
        ensures ok { OnOk result (Chooses (source self.old) name (source self.new)) }
        ensures err { OnErr result (Faults (source self.old) (Some name) (source self.new)) };

    /// Gives the next bytes of the chosen text, and says how many; 0 comes at its end alone. Failed names the
    /// chosen text as the one to blame.
    fn read(&mut self, into: &mut [u8]) -> Result<usize, Failed>
        requires room { 0 < length into.old }
        requires some_chosen { IsSome (source self.old).chosen }
        ensures ok { IfOk result (λ count. Gives (source self.old) into.new count (source self.new)) }
        ensures err { OnErr result (Faults (source self.old) (source self.old).chosen (source self.new)) };
}

/// What takes bytes, in order.
pub trait Sink {
    /// All that contracts see of the sink.
    ghost intake: { Self → Intake };

    /// Takes a front of the piece, of at least one byte, and says how long it is. Failed takes nothing.
    fn write(&mut self, piece: &[u8]) -> Result<usize, Failed>
        requires { 0 < length piece.now }
        ensures ok { IfOk result (λ count. TakesFront (intake self.old) piece.now count (intake self.new)) }
        ensures err { OnErr result (TakesNothing (intake self.old) (intake self.new)) };
}

/// What is passed before each call of an item function. It changes nothing that a contract sees.
pub trait Gate: Sync {
    /// Called just before the function of the job at place `job` is called on the item at `index`.
    fn enter(&self, job: u32, index: u32);
}

/// The gate that stands open.
#[derive(Clone, Copy, Debug, PartialEq, Eq)]
pub struct NoGate;

impl Gate for NoGate {
    fn enter(&self, _job: u32, _index: u32) {}
}
