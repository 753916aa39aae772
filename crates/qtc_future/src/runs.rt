ghost use Rattle.std.specs.Prelude.{◌≡◌, IfOk, All, map};
ghost use Rattle.qtc_future.specs.Answering.{IsTry};
ghost use Rattle.qtc_future.specs.Future.{new_future};
ghost use Rattle.qtc_future.specs.Runs.{run_of, told_of, IsAskable};
ghost use Rattle.qtc_future.specs.Steps.{step};

use crate::{Answer, Asked, FutureCore, Request};
use qtc_base::{List, NoMemory};
use std::alloc::Global;

/// Makes one call. Err is want of memory, and leaves the future as it was.
pub fn answer<V: Drop>(core: &mut FutureCore<V>, asked: Asked<V>) -> Result<Answer, NoMemory>
    requires { IsAskable core.old.filter asked }
    ensures { IsTry core.old (step core.old asked.caller asked.request) told_of core.new result }
{
    let Asked { caller, request } = asked;
    let reply = match request {
        Request::Start => return Ok(Answer::Effect(core.start(caller))),
        Request::Cancel => return Ok(Answer::Effect(core.cancel(caller))),
        Request::Finish => return Ok(Answer::Effect(core.finish(caller))),
        Request::Fail { index, item } => {
            return Ok(Answer::Effect(core.fail(caller, index, item)));
        }
        Request::SetSuspended { on } => {
            return Ok(Answer::Effect(core.set_suspended(caller, on)?));
        }
        Request::ReportSuspended => {
            return Ok(Answer::Effect(core.report_suspended(caller)?));
        }
        Request::Account { total } => core.account(caller, total)?,
        Request::AddResult { index, value } => core.add_result(caller, index, value)?,
        Request::ReportBatch {
            begin,
            values,
            total,
        } => core.report_batch(caller, begin, values, total)?,
    };
    Ok(Answer::Reply(reply))
}

/// A new future after these calls, one after the other, with the answer to each. Err is want of memory.
pub fn run<V: Drop>(
    alloc: Global,
    filter: bool,
    cancel_after: u32,
    suspend_after: u32,
    calls: Vec<Asked<V>>,
) -> Result<(FutureCore<V>, List<Answer>), NoMemory>
    requires { All (IsAskable filter) calls.items }
    ensures future { let run = run_of (new_future filter cancel_after suspend_after) calls.items in
        IfOk result (λ made. made.0 ≡ run.future) }
    ensures told { let run = run_of (new_future filter cancel_after suspend_after) calls.items in
        IfOk result (λ made. map told_of made.1 ≡ run.told) }
{
    let mut core = FutureCore::new(alloc, filter, cancel_after, suspend_after)?;
    let mut answers = List::new(alloc);
    for asked in calls {
        let reply = answer(&mut core, asked)?;
        match answers.push(reply) {
            Ok(()) => {}
            Err(_reply) => return Err(NoMemory),
        }
    }
    Ok((core, answers))
}
