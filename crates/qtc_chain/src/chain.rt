//! Chains of continuations.
ghost use Rattle.std.specs.Prelude.{IfOk};
ghost use Rattle.qtc_chain.specs.Chains.{IsChained};

use crate::Continuation;
use qtc_base::{List, NoMemory};
use qtc_future::Outcome;

/// Runs the steps one after the other, from the first, each on what the one before gave, and gives what the last one gave.
/// Err is want of memory: the steps that are left are dropped, and so is the outcome.
pub fn run_chain<V, K: Continuation<V> + Drop>(
    outcome: Outcome<V>,
    steps: List<K>,
) -> Result<Outcome<V>, NoMemory>
    ensures { IfOk result (λ given. IsChained K.gives outcome steps given) }
{
    let mut given = outcome;
    for step in steps.into_vec() {
        given = step.run(given)?;
    }
    Ok(given)
}
