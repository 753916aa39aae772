// Rows of a promise's calls, each with what it is answered.
use crate::shared::makers::Maker;
use crate::shared::plain;
use crate::shared::rows::{Answer, of_effect};
use qtc_base::{Bytes, NoMemory};
use qtc_events::Flags;
use std::alloc::Global;
use std::process::Abort;
use std::sync::Wait;
use std::test::Fail;

// A call of a maker.
#[derive(Clone, Copy, Debug)]
enum Step {
    AskState,
    AskCanceled,
    Start,
    Pause,
    // Adds a value at an index, or where the last one ends.
    Add(Option<u32>, u32),
    SetFailure(u32),
    Finish,
}

fn of_pause(flags: Result<Flags, NoMemory>) -> Answer {
    match flags {
        Ok(flags) => Answer::Flags(flags.bits),
        Err(NoMemory) => Answer::Other,
    }
}

fn answered<R: Wait>(rt: &R, alloc: Global, maker: &mut Maker, step: Step) -> Answer {
    match step {
        Step::AskState => Answer::Flags(maker.state().bits),
        Step::AskCanceled => Answer::Is(maker.is_canceled()),
        Step::Start => Answer::Is(maker.start(rt)),
        Step::Pause => of_pause(maker.pause(rt)),
        Step::Add(index, value) => of_effect(maker.add(rt, index, value)),
        Step::SetFailure(index) => Answer::Is(maker.set_failure(rt, index, Bytes::new(alloc))),
        Step::Finish => Answer::Is(maker.finish(rt)),
    }
}

// Makes the calls one after the other on a new future, and ends the promise.
fn play<R: Abort + Wait>(rt: &R, alloc: Global, row: &[(Step, Answer)]) -> Result<(), Fail> {
    let (future, pass) = plain(alloc, 1)?;
    let mut maker = Maker::new(&future, pass);
    for (step, want) in row {
        let answer = answered(rt, alloc, &mut maker, *step);
        assert_eq!(rt; answer, *want, "at {step:?}");
    }
    assert_eq!(rt; maker.end(rt), 0);
    Ok(())
}

#[test]
fn results_are_added_until_a_promise_is_finished(rt: HostRuntime) -> Result<(), Fail> {
    let row = [
        (Step::AskState, Answer::Flags(128)),
        (Step::Start, Answer::Is(true)),
        (Step::AskState, Answer::Flags(3)),
        (Step::Pause, Answer::Flags(3)),
        (Step::Add(None, 7), Answer::Is(true)),
        (Step::Add(Some(0), 8), Answer::Is(false)),
        (Step::Finish, Answer::Is(true)),
        (Step::AskState, Answer::Flags(6)),
        (Step::Add(None, 9), Answer::Is(false)),
    ];
    play(&rt, rt.alloc(), row.as_slice())
}

#[test]
fn a_promise_that_fails_is_canceled(rt: HostRuntime) -> Result<(), Fail> {
    let row = [
        (Step::Start, Answer::Is(true)),
        (Step::AskCanceled, Answer::Is(false)),
        (Step::SetFailure(1), Answer::Is(true)),
        (Step::AskCanceled, Answer::Is(true)),
        (Step::Add(None, 7), Answer::Is(false)),
        (Step::SetFailure(2), Answer::Is(false)),
    ];
    play(&rt, rt.alloc(), row.as_slice())
}
