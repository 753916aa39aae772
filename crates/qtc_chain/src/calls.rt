//! The calls of the plain objects, each a value that says what it does to the object and answers.
ghost use Rattle.std.specs.Prelude.{◌≡◌, ◌<◌, ℕ, ⊤, List, Option, length};
ghost use Rattle.qtc_chain.specs.Arrivals.{IsArrived, IsAsked, IsFirst};
ghost use Rattle.qtc_chain.specs.Continuing.{IsAttached, IsFinished};
ghost use Rattle.qtc_chain.specs.Limits.{most_futures};

use crate::{AllArrive, AllState, AnyArrive, AnyState, Attach, ContState};

/// One call of an object.
pub(crate) trait Call<S>: Sized {
    type Answer;

    /// What the call makes of an object, and what it answers then.
    ghost does: { Self → S → S → Self.Answer → Type 0 };

    fn make(self, state: &mut S) -> Self::Answer
        ensures { Self.does self state.old state.new result };
}

/// One call of an object that waits for so many futures.
pub(crate) trait CountedCall<T>: Sized {
    type Answer;

    /// That the call may be made where so many futures are waited for.
    ghost within: { Self → ℕ → Type 0 };

    /// What the call makes of an object, and what it answers then.
    ghost does: { Self → List (Option T) → List (Option T) → Self.Answer → Type 0 };

    fn make(self, state: &mut AllState<T>) -> Self::Answer
        requires { Self.within self (length state.old) }
        ensures does { Self.does self state.old state.new result }
        ensures count { length state.new ≡ length state.old };
}

pub(crate) struct AttachStep<K> {
    pub step: K,
}

impl<K> Call<ContState<K>> for AttachStep<K> {
    type Answer = Attach<K>;

    ghost does = { λ call. IsAttached call.step };

    fn make(self, state: &mut ContState<K>) -> Attach<K> {
        let AttachStep { step } = self;
        state.attach(step)
    }
}

#[derive(Drop)]
pub(crate) struct Finish;

impl<K> Call<ContState<K>> for Finish {
    type Answer = Option<K>;

    ghost does = { λ _. IsFinished };

    fn make(self, state: &mut ContState<K>) -> Option<K> {
        state.finished()
    }
}

/// An arrival where any one of at most 65,536 futures is waited for.
pub(crate) struct ArriveFirst<T> {
    pub index: u32,
    pub value: T,
    ghost within: { index < most_futures },
}

impl<T> Call<AnyState<T>> for ArriveFirst<T> {
    type Answer = AnyArrive<T>;

    ghost does = { λ call. IsFirst call.index call.value };

    fn make(self, state: &mut AnyState<T>) -> AnyArrive<T> {
        let ArriveFirst { index, value } = self;
        state.arrive(index, value)
    }
}

pub(crate) struct Arrive<T> {
    pub index: u32,
    pub value: T,
}

impl<T> CountedCall<T> for Arrive<T> {
    type Answer = AllArrive<T>;

    ghost within = { λ call n. call.index < n };

    ghost does = { λ call. IsArrived call.index call.value };

    fn make(self, state: &mut AllState<T>) -> AllArrive<T> {
        let Arrive { index, value } = self;
        state.arrive(index, value)
    }
}

#[derive(Drop)]
pub(crate) struct AskFinished;

impl<T> CountedCall<T> for AskFinished {
    type Answer = bool;

    ghost within = { λ _ _. ⊤ };

    ghost does = { λ _. IsAsked };

    fn make(self, state: &mut AllState<T>) -> bool {
        state.is_finished()
    }
}
