// Rows of calls, each with what it is answered.
use crate::shared::callers::Caller;
use crate::shared::plain;
use qtc_base::{Bytes, NoMemory};
use qtc_events::Reached;
use qtc_future::Reply;
use std::alloc::Global;
use std::process::Abort;
use std::sync::Wait;
use std::test::Fail;

// A call of a caller.
#[derive(Clone, Copy, Debug)]
enum Step {
    Look,
    AskCanceled,
    AskFinished,
    Start,
    Cancel,
    Finish,
    // Tells that the item at an index failed.
    Fail(u32),
    // Suspends, or resumes.
    SetSuspended(bool),
    ReportSuspended,
    // Reports a value at an index.
    Report(u32, u32),
    Account(u32),
    Count,
    Get(u32),
    WaitResult(u32),
    WaitResume,
    WaitFinished,
}

// What a call is answered.
#[derive(Clone, Copy, Debug, PartialEq, Eq)]
pub enum Answer {
    // The word of flags.
    Flags(u32),
    // Whether it had an effect, or whether it is so.
    Is(bool),
    // How many results there were from 0 on, and how many there are.
    Accepted(u32, u32),
    // The word of flags for which nothing is taken.
    Dropped(u32),
    Count(u32),
    Found(u32),
    NotFound,
    Other,
}

pub fn of_effect(effect: Result<bool, NoMemory>) -> Answer {
    match effect {
        Ok(effect) => Answer::Is(effect),
        Err(NoMemory) => Answer::Other,
    }
}

fn of_reply(reply: Result<Reply, NoMemory>) -> Answer {
    match reply {
        Ok(
            Reply::Accepted {
                added,
                reached: Reached::Nothing,
            },
        ) => Answer::Accepted(added.old_count, added.new_count),
        Ok(Reply::Dropped(flags)) => Answer::Dropped(flags.bits),
        _ => Answer::Other,
    }
}

fn of_value(value: Result<Option<u32>, NoMemory>) -> Answer {
    match value {
        Ok(Some(value)) => Answer::Found(value),
        Ok(None) => Answer::NotFound,
        Err(NoMemory) => Answer::Other,
    }
}

fn answered<R: Wait>(rt: &R, alloc: Global, caller: &mut Caller, step: Step) -> Answer {
    match step {
        Step::Look => Answer::Flags(caller.flags().bits),
        Step::AskCanceled => Answer::Is(caller.is_canceled()),
        Step::AskFinished => Answer::Is(caller.is_finished()),
        Step::Start => Answer::Is(caller.start(rt)),
        Step::Cancel => Answer::Is(caller.cancel(rt)),
        Step::Finish => Answer::Is(caller.finish(rt)),
        Step::Fail(index) => Answer::Is(caller.fail(rt, index, Bytes::new(alloc))),
        Step::SetSuspended(on) => of_effect(caller.set_suspended(rt, on)),
        Step::ReportSuspended => of_effect(caller.report_suspended(rt)),
        Step::Report(index, value) => of_reply(caller.report(rt, alloc, index, value)),
        Step::Account(total) => of_reply(caller.account(rt, total)),
        Step::Count => Answer::Count(caller.count(rt)),
        Step::Get(index) => of_value(caller.get(rt, index)),
        Step::WaitResult(index) => of_value(caller.wait_result(rt, index)),
        Step::WaitResume => Answer::Flags(caller.wait_resume(rt).bits),
        Step::WaitFinished => Answer::Flags(caller.wait_finished(rt).bits),
    }
}

// Makes the calls one after the other on a new future.
fn play<R: Abort + Wait>(rt: &R, alloc: Global, row: &[(Step, Answer)]) -> Result<(), Fail> {
    let (future, pass) = plain(alloc, 1)?;
    let mut caller = Caller::new(&future, pass);
    for (step, want) in row {
        let answer = answered(rt, alloc, &mut caller, *step);
        assert_eq!(rt; answer, *want, "at {step:?}");
    }
    caller.give_back(rt);
    Ok(())
}

#[test]
fn a_report_after_a_cancel_is_dropped(rt: HostRuntime) -> Result<(), Fail> {
    let row = [
        (Step::Start, Answer::Is(true)),
        (Step::Look, Answer::Flags(3)),
        (Step::Report(0, 7), Answer::Accepted(0, 1)),
        (Step::WaitResult(0), Answer::Found(7)),
        (Step::AskCanceled, Answer::Is(false)),
        (Step::Cancel, Answer::Is(true)),
        (Step::AskCanceled, Answer::Is(true)),
        (Step::Look, Answer::Flags(11)),
        (Step::Report(1, 8), Answer::Dropped(11)),
        (Step::Get(0), Answer::Found(7)),
        (Step::Count, Answer::Count(1)),
        (Step::WaitResult(1), Answer::NotFound),
        (Step::AskFinished, Answer::Is(false)),
        (Step::Finish, Answer::Is(true)),
        (Step::AskFinished, Answer::Is(true)),
        (Step::WaitFinished, Answer::Flags(14)),
    ];
    play(&rt, rt.alloc(), row.as_slice())
}

#[test]
fn a_future_is_suspended_and_resumed(rt: HostRuntime) -> Result<(), Fail> {
    let row = [
        (Step::Look, Answer::Flags(128)),
        (Step::Start, Answer::Is(true)),
        (Step::Look, Answer::Flags(3)),
        (Step::SetSuspended(true), Answer::Is(true)),
        (Step::Look, Answer::Flags(19)),
        (Step::ReportSuspended, Answer::Is(true)),
        (Step::Look, Answer::Flags(35)),
        (Step::SetSuspended(false), Answer::Is(true)),
        (Step::WaitResume, Answer::Flags(3)),
        (Step::SetSuspended(false), Answer::Is(false)),
    ];
    play(&rt, rt.alloc(), row.as_slice())
}

#[test]
fn nothing_is_counted_after_a_failure(rt: HostRuntime) -> Result<(), Fail> {
    let row = [
        (Step::Start, Answer::Is(true)),
        (Step::Fail(7), Answer::Is(true)),
        (Step::Account(1), Answer::Dropped(11)),
        (Step::Finish, Answer::Is(true)),
        (Step::Look, Answer::Flags(14)),
        (Step::Fail(8), Answer::Is(false)),
    ];
    play(&rt, rt.alloc(), row.as_slice())
}
