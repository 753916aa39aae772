// Chains of steps on outcomes.
use qtc_base::{Bytes, List, NoMemory};
use qtc_chain::{Attach, BoxedStep, Cont, Continuation, run_chain};
use qtc_future::{Failure, Outcome};
use std::alloc::Global;
use std::test::Fail;

type Boxed = Box<dyn FnOnce(Outcome<Bytes>) -> Result<Outcome<Bytes>, NoMemory> + Send>;

// The one value of a handler.
fn one_value(alloc: Global, text: &[u8]) -> Result<Outcome<Bytes>, NoMemory> {
    let mut values = List::new(alloc);
    match values.push(Bytes::from_slice(alloc, text)?) {
        Ok(()) => Ok(Outcome::Values(values)),
        Err(_) => Err(NoMemory),
    }
}

// Takes a failure, and passes on the rest.
fn on_failed(
    alloc: Global,
    outcome: Outcome<Bytes>,
    text: &[u8],
) -> Result<Outcome<Bytes>, NoMemory> {
    match outcome {
        Outcome::Failed(_) => one_value(alloc, text),
        other => Ok(other),
    }
}

// Takes values, and gives their number as one value; passes on the rest.
fn then_count(alloc: Global, outcome: Outcome<Bytes>) -> Result<Outcome<Bytes>, NoMemory> {
    match outcome {
        Outcome::Values(values) => {
            let text = if values.len() == 1 {
                b"one".as_slice()
            } else {
                b"several".as_slice()
            };
            one_value(alloc, text)
        }
        other => Ok(other),
    }
}

fn failed(alloc: Global) -> Result<Outcome<Bytes>, NoMemory> {
    Ok(Outcome::Failed(Failure {
        index: 1,
        item: Bytes::from_slice(alloc, b"x")?,
    }))
}

// What an outcome says, in a word.
fn told<'a>(outcome: &'a Outcome<Bytes>) -> &'a [u8] {
    match outcome {
        Outcome::Values(values) => match values.as_slice() {
            [value] => value.as_slice(),
            _ => b"values",
        },
        Outcome::Failed(failure) => failure.item.as_slice(),
        Outcome::Canceled => b"canceled",
    }
}

#[test]
fn a_function_of_the_callers_takes_a_failure_and_passes_on_the_rest(
    rt: HostRuntime,
) -> Result<(), Fail> {
    let alloc = rt.alloc();
    let first: Boxed = Box::new(alloc, move |outcome: Outcome<Bytes>| {
        on_failed(alloc, outcome, b"none")
    })?;
    let second: Boxed = Box::new(alloc, move |outcome: Outcome<Bytes>| {
        on_failed(alloc, outcome, b"other")
    })?;
    let given = BoxedStep::new(first).run(failed(alloc)?)?;
    assert_eq!(rt; told(&given), b"none".as_slice());
    let given = BoxedStep::new(second).run(given)?;
    assert_eq!(rt; told(&given), b"none".as_slice());
    Ok(())
}

#[test]
fn a_chain_runs_from_its_first_step(rt: HostRuntime) -> Result<(), Fail> {
    let alloc = rt.alloc();
    let handler: Boxed = Box::new(alloc, move |outcome: Outcome<Bytes>| {
        on_failed(alloc, outcome, b"none")
    })?;
    let counter: Boxed = Box::new(alloc, move |outcome: Outcome<Bytes>| {
        then_count(alloc, outcome)
    })?;
    let mut steps = Vec::new(alloc);
    steps.push(BoxedStep::new(handler))?;
    steps.push(BoxedStep::new(counter))?;
    let given = run_chain(failed(alloc)?, List::from_vec(steps))?;
    assert_eq!(rt; told(&given), b"one".as_slice());
    Ok(())
}

#[test]
fn a_chain_of_no_steps_gives_the_outcome(rt: HostRuntime) -> Result<(), Fail> {
    let steps: List<BoxedStep> = List::new(rt.alloc());
    let given = run_chain(Outcome::Canceled, steps)?;
    assert_eq!(rt; told(&given), b"canceled".as_slice());
    Ok(())
}

#[test]
fn a_function_waits_for_the_end_and_then_runs_on_the_outcome(rt: HostRuntime) -> Result<(), Fail> {
    let alloc = rt.alloc();
    let handler: Boxed = Box::new(alloc, move |outcome: Outcome<Bytes>| {
        on_failed(alloc, outcome, b"none")
    })?;
    let cont = Cont::new();
    assert!(rt; matches!(cont.attach(&rt, BoxedStep::new(handler)), Attach::Waiting));
    let outcome = failed(alloc)?;
    let given = match cont.finished(&rt) {
        Some(step) => step.run(outcome)?,
        None => outcome,
    };
    assert_eq!(rt; told(&given), b"none".as_slice());
    Ok(())
}
