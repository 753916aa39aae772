//! Futures that a future had as its result.
ghost use Rattle.std.specs.Prelude.{IfOk, IsOk, IsTrue};
ghost use Rattle.qtc_tasks.specs.Waits.{HasOne, IsUnwrapped, passes_on};

use qtc_base::{NoMemory, Value};
use qtc_future::{FutureCore, Outcome};

/// The outcome of a future that has a future as its one result: the inner one's, and a failure or a cancel of the outer.
/// Err is want of memory, and drops both; what passes on wants none. (After QFuture::unwrap.)
pub fn unwrap_outcome<V: Value + Drop>(
    outer: Outcome<FutureCore<V>>,
) -> Result<Outcome<V>, NoMemory>
    requires { HasOne outer }
    ensures outcome { IfOk result (IsUnwrapped outer) }
    ensures sure { IsTrue (passes_on outer) → IsOk result }
{
    match outer {
        Outcome::Values(values) => match values.into_vec().pop() {
            Some(inner) => inner.into_outcome(),
            None => unreachable!(),
        },
        Outcome::Failed(failure) => Ok(Outcome::Failed(failure)),
        Outcome::Canceled => Ok(Outcome::Canceled),
    }
}
