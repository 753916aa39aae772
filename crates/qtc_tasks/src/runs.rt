//! Many jobs, all done at once.
ghost use Rattle.std.specs.Prelude.{◌≡◌, IfOk};
ghost use Rattle.std.specs.List.{AllZip};
ghost use Rattle.qtc_tasks.specs.Places.{EachIsReady, EachIsRun, IsReady, IsReadyAt, IsRun};
ghost use Rattle.qtc_tasks.specs.Runs.{IsJobEnd, MayRun};

use crate::places::{Place, ends_of, places_of};
use crate::work::run_task;
use crate::{Task, TaskEnd, TaskJob};
use qtc_base::{NoMemory, Value};
use qtc_shared::SharedFuture;
use std::alloc::Global;
use std::sync::Wait;
use std::thread::{Threads, for_each_mut};

// Runs the job of one place.
fn run_place<R: Wait, V: Value + Drop, T: Task<V> + Drop>(
    rt: &R,
    future: &SharedFuture<V>,
    place: &mut Place<V, T>,
)
    requires { IsReady future.now place.old }
    ensures { IsRun T.state place.old place.new }
{
    if let Some(job) = place.job.take() {
        place.end = Some(run_task(rt, future, job));
    }
}

// Runs the job of each place by the future of the same number, all at once: each half of the places by threads of its
// own.
#[tactic(auto, using(crate::proofs::PlaceLemmas::run_at))]
fn run_places<R: Threads + Wait + Sync, V: Value + Drop, T: Task<V> + Drop>(
    rt: &R,
    futures: &[SharedFuture<V>],
    places: &mut [Place<V, T>],
)
    requires { EachIsReady futures.now places.old }
    ensures { EachIsRun T.state places.old places.new }
{
    let threads = places.len();
    if threads == 0 {
        return;
    }
    for_each_mut(
        rt,
        places,
        threads,
        &|index: usize, place: &mut Place<V, T>|
            requires { IsReadyAt futures.now index place.now }
            ensures { IsRun T.state place.old place.new }
        {
            run_place(rt, &futures[index], place);
        },
    );
}

/// Runs each job by the future of the same number, all at once: the list is cut in halves, over and over, and the halves
/// are done by threads of their own; where a thread can't be had, the one that wanted it does the work. Each job starts its
/// future, gives it the values of its task one after the other, and finishes it in every case; before each value it pauses
/// where a suspension is asked for. How each ended comes back in the order of the jobs.
///
/// Err is want of memory: then no task was run, and the jobs are dropped. (After QtConcurrent::run with a QPromise; own.)
pub fn run_all<R: Threads + Wait + Sync, V: Value + Drop, T: Task<V> + Drop>(
    alloc: Global,
    rt: &R,
    futures: &[SharedFuture<V>],
    jobs: Vec<TaskJob<V, T>>,
) -> Result<Vec<TaskEnd<V, T>>, NoMemory>
    requires { AllZip MayRun futures.now jobs.items }
    ensures { IfOk result (λ ends. AllZip (IsJobEnd T.state) jobs.items ends.items) }
{
    let ends = Vec::with_capacity(alloc, jobs.len())?;
    let mut places = places_of(alloc, jobs)?;
    run_places(rt, futures, places.as_mut_slice());
    Ok(ends_of(places, ends))
}
