//! One turn of a job: a pause, and then a value of the task.
ghost use Rattle.std.specs.Prelude.{◌≡◌, ◌<◌, false, None, Ok, Err, IfSome, IfNone};
ghost use Rattle.qtc_events.specs.Flags.{flags_in};
ghost use Rattle.qtc_shared.specs.Laws.{is_ended};
ghost use Rattle.qtc_shared.specs.Passes.{IsPause, IsReport};
ghost use Rattle.qtc_tasks.specs.Inside.{CanAdd, IsTurn, IsAnswered};

use crate::{Task, TaskFault, TaskStop};
use qtc_base::{NoMemory, Value};
use qtc_events::Flags;
use qtc_shared::{Pass, SharedFuture};
use std::sync::Wait;

// Whether Canceled or Finished stands.
fn ended(flags: Flags) -> bool
    ensures { result ≡ is_ended (flags_in flags.bits) }
{
    flags.is_canceled() || flags.is_finished()
}

// Reports that the work stands still where Suspending stands. Err is want of memory.
fn report_where_asked<R: Wait, V: Value>(
    rt: &R,
    future: &SharedFuture<V>,
    pass: &mut Pass<V>,
) -> Result<bool, NoMemory>
    requires { pass.old.of ≡ future.now }
    ensures { IsReport pass.old pass.new result }
{
    if future.state(pass).is_suspending() {
        return future.report_suspended(rt, pass);
    }
    Ok(false)
}

// Where a suspension is asked for, reports that the work stands still, and waits until it is resumed. Gives the flags
// that then stand. Err is want of memory.
fn pause<R: Wait, V: Value>(
    rt: &R,
    future: &SharedFuture<V>,
    pass: &mut Pass<V>,
) -> Result<Flags, NoMemory>
    requires { pass.old.of ≡ future.now }
    ensures { IsPause pass.old pass.new result }
{
    match report_where_asked(rt, future, pass) {
        Ok(_effect) => Ok(future.wait_resume(rt, pass)),
        Err(NoMemory) => Err(NoMemory),
    }
}

// Offers a value, and tells by what the job stops, or None where the value was added.
fn offer<R: Wait, V: Value + Drop, T>(
    rt: &R,
    future: &SharedFuture<V>,
    pass: &mut Pass<V>,
    value: V,
) -> Option<TaskStop<T>>
    requires { CanAdd future.now pass.old }
    ensures { IsAnswered pass.old pass.new value result }
{
    match future.add_result(rt, pass, None, value) {
        Ok(true) => None,
        Ok(false) => {
            if ended(future.state(pass)) {
                Some(TaskStop::Canceled)
            } else {
                Some(TaskStop::Refused)
            }
        }
        Err(NoMemory) => Some(TaskStop::Memory),
    }
}

/// One turn of a job of which so many values came: a pause where one is asked for, and then the next value of the task.
/// Tells by what the job stops, or None where the value was added.
pub(crate) fn turn<R: Wait, V: Value + Drop, T: Task<V>>(
    rt: &R,
    future: &SharedFuture<V>,
    pass: &mut Pass<V>,
    task: &mut T,
    came: u32,
) -> Option<TaskStop<T>>
    requires { CanAdd future.now pass.old }
    ensures { IsTurn (T.state task.old) (T.state task.new) came pass.old pass.new result }
{
    let Ok(flags) = pause(rt, future, pass) else {
        return Some(TaskStop::Memory);
    };
    if ended(flags) {
        return Some(TaskStop::Canceled);
    }
    match task.next() {
        Ok(Some(value)) => offer(rt, future, pass, value),
        Ok(None) => Some(TaskStop::Whole),
        Err(TaskFault::Bad(text)) => {
            future.fail(rt, pass, came, text);
            Some(TaskStop::Failed)
        }
        Err(TaskFault::Memory) => Some(TaskStop::Memory),
    }
}
