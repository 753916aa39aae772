ghost use Rattle.std.specs.Prelude.{IfOk};
ghost use Rattle.qtc_future.specs.declared.replies.Outcome.{Outcome as Ended};

use qtc_base::NoMemory;
use qtc_future::Outcome;

/// What is done with the outcome of a future once that has ended, and gives an outcome itself. (After QFuture's `then`,
/// `onFailed` and `onCanceled`; own.)
pub trait Continuation<V>: Sized {
    // the outcomes that the step may give for an outcome
    ghost gives: { Self → Ended V → Ended V → Type 0 };

    /// Runs the step on an outcome. Err is want of memory, and the outcome is dropped.
    fn run(self, outcome: Outcome<V>) -> Result<Outcome<V>, NoMemory>
        ensures { IfOk result (λ given. gives self outcome given) };
}
