ghost use Rattle.std.specs.Prelude.{◌≤◌, length, IfSome};

use crate::{Failed, Sink};
use std::io::{Stderr, Stdout};

/// Which of the standard streams.
#[derive(Drop)]
enum Stream {
    Output(Stdout),
    Error(Stderr),
}

/// The standard output or the standard error, as a sink. What it got is not told.
#[derive(Drop)]
pub struct StdSink {
    stream: Stream,
    faults: u64,
}

impl StdSink {
    ghost use Rattle.std.specs.Prelude.{◌≡◌};
    ghost use Rattle.qtc_outside.specs.StdSink.{goes_to_error, stream_intake};

    /// The standard error where `error`, else the standard output.
    pub fn new(rt: &HostRuntime, error: bool) -> StdSink
        ensures stream { goes_to_error result ≡ error }
        ensures faults { (stream_intake result).faults ≡ 0 }
    {
        let stream = if error {
            Stream::Error(rt.stderr())
        } else {
            Stream::Output(rt.stdout())
        };
        StdSink { stream, faults: 0 }
    }

    /// One write, where the stream takes at least a byte.
    fn write_some(&self, piece: &[u8]) -> Option<usize>
        ensures { IfSome result (λ count. (1 ≤ count) × (count ≤ length piece.now)) }
    {
        let written = match &self.stream {
            Stream::Output(output) => output.write_some(piece),
            Stream::Error(error) => error.write_some(piece),
        };
        match written {
            Ok(0) | Err(_) => None,
            Ok(count) => Some(count),
        }
    }
}

impl Sink for StdSink {
    ghost use Rattle.std.specs.Prelude.{◌≡◌, ◌<◌, length, IfOk, OnErr};
    ghost use Rattle.qtc_outside.specs.Counts.{faults_after};
    ghost use Rattle.qtc_outside.specs.Intake.{TakesFront, TakesNothing};
    ghost use Rattle.qtc_outside.specs.StdSink.{goes_to_error, stream_intake};

    ghost intake = { stream_intake };

    fn write(&mut self, piece: &[u8]) -> Result<usize, Failed>
        requires { 0 < length piece.now }
        ensures ok { IfOk result (λ count. TakesFront (stream_intake self.old) piece.now count (stream_intake self.new)) }
        ensures err { OnErr result (TakesNothing (stream_intake self.old) (stream_intake self.new)) }
        ensures one_fault { self.new.faults ≡ faults_after self.old.faults result }
        ensures stream { goes_to_error self.new ≡ goes_to_error self.old }
    {
        match self.write_some(piece) {
            Some(count) => Ok(count),
            None => {
                self.faults = self.faults.saturating_add(1);
                Err(Failed)
            }
        }
    }
}
