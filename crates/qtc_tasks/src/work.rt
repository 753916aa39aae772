//! The work of one job: all its turns.
ghost use Rattle.std.specs.Prelude.{◌≡◌, ◌<◌};
ghost use Rattle.qtc_tasks.specs.Inside.{CanAdd};
ghost use Rattle.qtc_tasks.specs.Runs.{IsJobEnd, MayRun};
ghost use Rattle.qtc_tasks.specs.Turns.{IsWork};

use crate::turns::turn;
use crate::{Task, TaskEnd, TaskJob, TaskStop};
use qtc_base::Value;
use qtc_shared::{Pass, SharedFuture};
use std::sync::Wait;

// The turns that a job takes at most: one for each result that a future may have, and one that finds it full.
const MOST_TURNS: u32 = 8_388_609;

// Takes turns until the job stops. Gives how many values were added, and by what it stopped.
fn work<R: Wait, V: Value + Drop, T: Task<V>>(
    rt: &R,
    future: &SharedFuture<V>,
    pass: &mut Pass<V>,
    task: &mut T,
) -> (u32, TaskStop<T>)
    requires { CanAdd future.now pass.old }
    ensures { IsWork (T.state task.old) pass.old pass.new result.0 result.1 }
{
    for came in 0..MOST_TURNS {
        if let Some(stop) = turn(rt, future, pass, task, came) {
            return (came, stop);
        }
    }
    unreachable!()
}

/// Runs one job: it starts the future, works, and finishes the future in every case. Where the start has no effect the
/// task comes back.
pub(crate) fn run_task<R: Wait, V: Value + Drop, T: Task<V> + Drop>(
    rt: &R,
    future: &SharedFuture<V>,
    job: TaskJob<V, T>,
) -> TaskEnd<V, T>
    requires { MayRun future.now job }
    ensures { IsJobEnd T.state job result }
{
    let TaskJob { mut pass, mut task } = job;
    if !future.start(rt, &mut pass) {
        future.finish(rt, &mut pass);
        return TaskEnd {
            pass,
            came: 0,
            stop: TaskStop::NotRun(task),
        };
    }
    let (came, stop) = work(rt, future, &mut pass, &mut task);
    future.finish(rt, &mut pass);
    TaskEnd { pass, came, stop }
}
