//! Futures that are finished as they are made.
ghost use Rattle.std.specs.Prelude.{◌≡◌, ◌≤◌, IfOk, length};
ghost use Rattle.qtc_base.specs.Limits.{most_end};
ghost use Rattle.qtc_tasks.specs.Ready.{IsReadyFuture, TellsPastEnd, ready_core};

use qtc_base::{List, NoMemory, Value};
use qtc_future::FutureCore;
use qtc_shared::{Pass, SharedFuture};
use std::alloc::Global;

/// Why no future was made of a list of values.
#[derive(Clone, Copy, Debug, PartialEq, Eq)]
pub enum ReadyFault {
    /// There are more values than a future takes: more than 8,388,608.
    PastEnd,
    /// Memory was wanted.
    Memory,
}

// The most results that a future takes.
const MOST_RESULTS: usize = 8_388_608;

/// A future that was started and finished with these results, and its first pass, which knows the whole journal. (After
/// Qt's makeReadyValueFuture and makeReadyRangeFuture.)
pub fn ready<V: Value + Drop>(
    alloc: Global,
    values: List<V>,
) -> Result<(SharedFuture<V>, Pass<V>), ReadyFault>
    ensures ready { IfOk result (λ made. IsReadyFuture values made.0 made.1) }
    ensures past_end { TellsPastEnd (length values) result }
{
    if values.len() > MOST_RESULTS {
        return Err(ReadyFault::PastEnd);
    }
    let core = match finished_core(alloc, values) {
        Ok(core) => core,
        Err(NoMemory) => return Err(ReadyFault::Memory),
    };
    match SharedFuture::from_core(alloc, core, 1, 1) {
        Ok((future, mut passes)) => {
            let first = passes.pop().unwrap();
            Ok((future, first))
        }
        Err(NoMemory) => Err(ReadyFault::Memory),
    }
}

// A core that was started and finished with these results. Err is want of memory.
fn finished_core<V: Value + Drop>(alloc: Global, values: List<V>) -> Result<FutureCore<V>, NoMemory>
    requires { length values ≤ most_end }
    ensures { IfOk result (λ core. core ≡ ready_core values) }
{
    let total = values.len() as u32;
    let mut core = FutureCore::new(alloc, false, 0, 0)?;
    core.start(0);
    core.report_batch(0, 0, values, total)?;
    core.finish(0);
    Ok(core)
}
