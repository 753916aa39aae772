// Threads that wait for a lock or on a bell, and are woken.
use super::Number;
use qtc_lock::{Bell, KeyLock, Sleepers};
use std::marker::Brand;
use std::rt::Clock;
use std::sync::Wait;
use std::test::Fail;
use std::thread;
use std::thread::{Threads, join, map_indices};
use std::time::Duration;

// Waits until the bell rang so often.
fn listen<R: Wait>(rt: &R, bell: &Bell, rings: u32) {
    for _ in rt.forever() {
        let count = bell.count();
        if count >= rings {
            return;
        }
        bell.sleep(rt, count);
    }
}

// Takes the number, rings, and puts another back once who waits has stopped pausing.
fn keep<R: Wait + Clock>(rt: &R, lock: &KeyLock<Number>, taken: &Bell) {
    let (Number(number), hold) = lock.take(rt);
    taken.ring();
    thread::sleep(rt, Duration::from_millis(20));
    lock.put(Number(number.wrapping_add(1)), hold);
}

// Takes the number once another has it, and puts it back as it was.
fn wait_for<R: Wait>(rt: &R, lock: &KeyLock<Number>, taken: &Bell) -> u64 {
    listen(rt, taken, 1);
    let (Number(number), hold) = lock.take(rt);
    lock.put(Number(number), hold);
    number
}

fn waited<R: Threads + Wait + Clock + Sync>(rt: &R, lock: &KeyLock<Number>, taken: &Bell) -> u64 {
    join(rt, || keep(rt, lock, taken), || wait_for(rt, lock, taken)).1
}

fn count_often<R: Wait>(rt: &R, lock: &KeyLock<Number>) {
    for _ in 0..10_000 {
        let (Number(number), hold) = lock.take(rt);
        lock.put(Number(number.wrapping_add(1)), hold);
    }
}

// Rings the one bell a hundred times, each time after the other rang once more.
fn answer<R: Wait>(rt: &R, asked: &Bell, answered: &Bell) {
    for round in 0..100 {
        listen(rt, asked, round + 1);
        answered.ring();
    }
}

fn ask<R: Wait + Clock>(rt: &R, asked: &Bell, answered: &Bell) {
    for round in 0..100 {
        thread::sleep(rt, Duration::from_micros(200));
        asked.ring();
        listen(rt, answered, round + 1);
    }
}

#[test]
fn who_waits_gets_what_is_put_back(rt: HostRuntime) -> Result<(), Fail> {
    let (Ok(lock), Some(taken)) = (
        KeyLock::new::<Brand>(rt.alloc(), Number(7)),
        Bell::new(rt.alloc()),
    ) else {
        panic!(rt; "memory")
    };
    let found = waited(&rt, &lock, &taken);
    let Number(last) = lock.close(&rt);
    assert_eq!(rt; (found, last), (8, 8));
    Ok(())
}

#[test]
fn eight_threads_count_to_eighty_thousand(rt: HostRuntime) -> Result<(), Fail> {
    let Ok(lock) = KeyLock::new::<Brand>(rt.alloc(), Number(0)) else {
        panic!(rt; "memory")
    };
    map_indices(&rt, rt.alloc(), 8, &|_| count_often(&rt, &lock))?;
    let Number(last) = lock.close(&rt);
    assert_eq!(rt; last, 80_000);
    Ok(())
}

#[test]
fn two_threads_wake_each_other_a_hundred_times(rt: HostRuntime) -> Result<(), Fail> {
    let (Some(asked), Some(answered)) = (Bell::new(rt.alloc()), Bell::new(rt.alloc())) else {
        panic!(rt; "memory")
    };
    join(
        &rt,
        || answer(&rt, &asked, &answered),
        || ask(&rt, &asked, &answered),
    );
    assert_eq!(rt; (asked.count(), answered.count()), (100, 100));
    Ok(())
}

#[test]
fn a_sleep_on_an_old_count_returns(rt: HostRuntime) -> Result<(), Fail> {
    let Some(bell) = Bell::new(rt.alloc()) else {
        panic!(rt; "memory")
    };
    bell.ring();
    bell.sleep(&rt, 0);
    let (count, ()) = join(&rt, move || bell.count(), || ());
    assert_eq!(rt; count, 1);
    Ok(())
}

#[test]
fn some_sleep_from_an_enter_to_its_leave(rt: HostRuntime) -> Result<(), Fail> {
    let Some(sleepers) = Sleepers::new(rt.alloc()) else {
        panic!(rt; "memory")
    };
    let none = sleepers.any();
    sleepers.enter();
    let one = sleepers.any();
    sleepers.leave();
    let (last, ()) = join(&rt, move || sleepers.any(), || ());
    assert_eq!(rt; (none, one, last), (false, true, false));
    Ok(())
}
