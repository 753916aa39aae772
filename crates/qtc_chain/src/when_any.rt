ghost use Rattle.std.specs.Prelude.{◌<◌};
ghost use Rattle.qtc_chain.specs.Arrivals.{IsFirst, IsClosedAny};
ghost use Rattle.qtc_chain.specs.Limits.{most_futures};
ghost use Rattle.qtc_chain.specs.Moments.{OnceDoes};

use crate::calls::ArriveFirst;
use crate::locked::locked;
use crate::{AnyArrive, AnyState};
use std::sync::{Mutex, Wait};

/// What the first of several futures came to, which threads share: an `AnyState` behind a lock. (After QtFuture's `whenAny`;
/// own.)
#[derive(Drop)]
pub struct WhenAny<T: Send> {
    state: Mutex<AnyState<T>>,
}

impl<T: Send> WhenAny<T> {
    /// None has arrived.
    pub fn new() -> WhenAny<T> {
        WhenAny {
            state: Mutex::new(AnyState::new()),
        }
    }

    /// Takes the value of the future with this index, which is below 65,536, as `AnyState::arrive` does.
    pub fn arrive<R: Wait>(&self, rt: &R, index: u32, value: T) -> AnyArrive<T>
        requires { index < most_futures }
        ensures { OnceDoes (λ before after. IsFirst index value before after result) }
    {
        locked(rt, &self.state, ArriveFirst { index, value })
    }

    /// The index and the value of the first that arrived; -1 and none where none has.
    pub fn close(self) -> (i32, Option<T>)
        ensures { IsClosedAny result }
    {
        self.state.into_inner().close()
    }
}
