//! What lists of calls on these objects come to, and what chains do, each the contract of a function that does nothing.
ghost use Rattle.qtc_chain.specs.Laws.{AreFolds, FirstArrivalCounts, FirstArrivalsCount, GoOn, StepsRunOnce};

use crate::Continuation;

/// Whatever is called on a continuation, the first step that was attached comes out to be run once, where the future has
/// finished, and waits where it has not; every other step is refused.
pub fn steps_run_once<K>()
    ensures { StepsRunOnce K }
{}

/// Whatever arrives, at each index stands what arrived there first.
pub fn first_arrivals_count<T>()
    ensures { FirstArrivalsCount T }
{}

/// Whatever arrives, what an `AnyState` keeps is the first arrival.
pub fn first_arrival_counts<T>()
    ensures { FirstArrivalCounts T }
{}

/// Where each step gives just what a function says of it, a chain gives the left fold of that function.
pub fn chains_are_folds<V, K: Continuation<V>>()
    ensures { AreFolds K.gives }
{}

/// A chain that goes on with more steps is the one chain and then the other.
pub fn chains_go_on<V, K: Continuation<V>>()
    ensures { GoOn K.gives }
{}
