ghost use Rattle.std.specs.Prelude.{◌≡◌, Ok, IfOk};

use crate::Continuation;
use qtc_base::{Bytes, NoMemory};
use qtc_future::Outcome;

type Step = Box<dyn FnOnce(Outcome<Bytes>) -> Result<Outcome<Bytes>, NoMemory> + Send>;

/// A function of the caller's own as a continuation over texts.
#[derive(Drop)]
pub struct BoxedStep {
    pub step: Step,
    ghost callable: { Step.IsAlwaysCallable step },
}

impl BoxedStep {
    /// A continuation that calls the function, which may be called on every outcome.
    pub fn new(step: Step) -> BoxedStep
        requires { Step.IsAlwaysCallable step }
        ensures { result.step ≡ step }
    {
        BoxedStep { step }
    }
}

impl Continuation<Bytes> for BoxedStep {
    ghost gives = { λ boxed outcome given. Step.post boxed.step outcome (Ok given) };

    fn run(self, outcome: Outcome<Bytes>) -> Result<Outcome<Bytes>, NoMemory>
        ensures { IfOk result (λ given. Step.post self.step outcome (Ok given)) }
    {
        (self.step)(outcome)
    }
}
