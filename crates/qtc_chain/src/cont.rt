ghost use Rattle.qtc_chain.specs.Continuing.{Cont as Continued, IsAttached, IsFinished};
ghost use Rattle.qtc_chain.specs.Moments.{OnceDoes};

use crate::calls::{AttachStep, Finish};
use crate::locked::locked;
use crate::{Attach, ContState};
use std::sync::{Mutex, Wait};

/// The continuation of one future that threads share: a `ContState` behind a lock. Who attaches a step and who finishes the
/// future may be two threads, and one of them, no more, gets the step to run. (After QFuture's `then`; own.)
#[derive(Drop)]
pub struct Cont<K: Send> {
    state: Mutex<ContState<K>>,
}

impl<K: Send> Cont<K> {
    /// Nothing is attached, and the future hasn't finished.
    pub fn new() -> Cont<K> {
        Cont {
            state: Mutex::new(ContState::new()),
        }
    }

    /// Attaches a step, as `ContState::attach` does.
    pub fn attach<R: Wait>(&self, rt: &R, step: K) -> Attach<K>
        ensures { OnceDoes (λ before after. IsAttached step before after result) }
    {
        locked(rt, &self.state, AttachStep { step })
    }

    /// Tells that the future has finished, as `ContState::finished` does.
    pub fn finished<R: Wait>(&self, rt: &R) -> Option<K>
        ensures { OnceDoes (λ (before after : Continued K). IsFinished before after result) }
    {
        locked(rt, &self.state, Finish)
    }
}
