// Threads that attach, finish and arrive at once, many times.
ghost use Rattle.std.specs.Prelude.{◌≡◌, ◌<◌};

use crate::rows::Step;
use qtc_chain::{AllArrive, AnyArrive, Attach, Cont, WhenAll, WhenAny};
use std::alloc::{AllocError, Global};
use std::sync::Wait;
use std::test::Fail;
use std::thread::{Threads, map_indices};

const THREADS: usize = 4;

const TIMES: usize = 1000;

// What a thread was given to run of one continuation: 0, or the number of the step.
fn attaches<R: Wait>(rt: &R, cont: &Cont<Step>, number: u32) -> u32 {
    match cont.attach(rt, Step { number }) {
        Attach::RunNow(step) => step.number,
        Attach::Waiting | Attach::Refused(_) => 0,
    }
}

fn finishes<R: Wait>(rt: &R, cont: &Cont<Step>) -> u32 {
    cont.finished(rt).map_or(0, |step| step.number)
}

// Thread 0 finishes all, the others attach a step of their number to each: what each was given to run, one by one.
fn goes_over<R: Wait>(
    rt: &R,
    alloc: Global,
    conts: &[Cont<Step>],
    thread: usize,
) -> Result<Vec<u32>, AllocError>
    requires { thread < 4 }
{
    let mut ran = Vec::new(alloc);
    for cont in conts {
        ran.push(if thread == 0 {
            finishes(rt, cont)
        } else {
            attaches(rt, cont, thread as u32)
        })?;
    }
    Ok(ran)
}

// How many threads were given a step of a continuation to run.
fn runs_at(all: &[Vec<u32>], place: usize) -> usize {
    all.iter()
        .filter(|ran| ran.get(place).is_some_and(|number| *number != 0))
        .count()
}

// Of how many continuations one thread alone was given the step.
fn given_once<R: Threads + Wait + Sync>(rt: &R, alloc: Global) -> Result<usize, AllocError> {
    let mut conts = Vec::new(alloc);
    for _ in 0..TIMES {
        conts.push(Cont::new())?;
    }
    let conts = conts.as_slice();
    let mut all = Vec::new(alloc);
    for ran in map_indices(
        rt,
        alloc,
        THREADS,
        &|thread| goes_over(rt, alloc, conts, thread),
    )? {
        all.push(ran?)?;
    }
    Ok(
        (0..TIMES)
            .filter(|place| runs_at(all.as_slice(), *place) == 1)
            .count(),
    )
}

#[test]
fn of_threads_that_attach_and_finish_one_is_given_the_step(rt: HostRuntime) -> Result<(), Fail> {
    for _ in 0..20 {
        assert_eq!(rt; given_once(&rt, rt.alloc())?, TIMES);
    }
    Ok(())
}

// Arrives at each index with the thread's number: how often it was the first there, and how often the last of all.
fn arrives<R: Wait>(rt: &R, all: &WhenAll<usize>, thread: usize) -> (usize, usize)
    requires { all.now.n ≡ TIMES }
{
    let mut first = 0usize;
    let mut last = 0usize;
    for index in 0..TIMES {
        match all.arrive(rt, index as u32, thread) {
            AllArrive::Waiting => first = first.wrapping_add(1),
            AllArrive::Last => {
                first = first.wrapping_add(1);
                last = last.wrapping_add(1);
            }
            AllArrive::Again(_) => {}
        }
    }
    (first, last)
}

#[test]
fn one_thread_is_first_at_each_index_and_one_is_the_last(rt: HostRuntime) -> Result<(), Fail> {
    let all = WhenAll::new(rt.alloc(), TIMES as u32)?;
    let told = map_indices(
        &rt,
        rt.alloc(),
        THREADS,
        &|thread| arrives(&rt, &all, thread),
    )?;
    assert_eq!(rt;
        told.iter()
            .map(|told| told.1)
            .fold(0usize, usize::wrapping_add),
        1
    );
    let values = all.close(&rt);
    for (thread, (first, _)) in told.iter().enumerate() {
        let kept = values
            .as_slice()
            .iter()
            .filter(|value| **value == Some(thread))
            .count();
        assert_eq!(rt; kept, *first, "of thread {thread}");
    }
    Ok(())
}

// Arrives at each object with the thread's number: at how many it was the first.
fn arrives_at_each<R: Wait>(rt: &R, objects: &[WhenAny<usize>], thread: usize) -> usize
    requires { thread < 4 }
{
    objects
        .iter()
        .filter(|any| any.arrive(rt, thread as u32, thread) == AnyArrive::First)
        .count()
}

#[test]
fn one_thread_is_first_at_each_object_and_its_value_is_kept(rt: HostRuntime) -> Result<(), Fail> {
    let mut objects = Vec::new(rt.alloc());
    for _ in 0..TIMES {
        objects.push(WhenAny::new())?;
    }
    let slice = objects.as_slice();
    let told = map_indices(
        &rt,
        rt.alloc(),
        THREADS,
        &|thread| arrives_at_each(&rt, slice, thread),
    )?;
    let mut kept = [0usize; THREADS];
    for any in objects {
        let (index, value) = any.close();
        for (thread, count) in kept.iter_mut().enumerate() {
            if value == Some(thread) && index == thread as i32 {
                *count = count.wrapping_add(1);
            }
        }
    }
    assert_eq!(rt; told.as_slice(), kept.as_slice());
    Ok(())
}
