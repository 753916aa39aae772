//! Threads that wait for a second. Whoever runs the program reads how much processor time that takes.
use qtc_lock::{Bell, KeyLock, Keyed};
use std::alloc::{AllocError, Global};
use std::marker::Brand;
use std::rt::Clock;
use std::sync::Wait;
use std::thread::{Threads, join};
use std::time::{Duration, Instant};
use std::{io, thread};

/// A number, which fits the only key.
#[derive(Drop)]
struct Number(u64);

impl Keyed for Number {
    type Key = ();

    ghost fits = { λ _ _. Unit {0} };
}

/// Waits until a bell rings for the first time.
fn listen<R: Wait>(rt: &R, bell: &Bell) {
    for _ in rt.forever() {
        if bell.count() != 0 {
            return;
        }
        bell.sleep(rt, 0);
    }
}

/// Does nothing for a second, then rings.
fn ring_late<R: Clock>(rt: &R, bell: &Bell) {
    thread::sleep(rt, Duration::from_secs(1));
    bell.ring();
}

/// How long it takes until the bell rings.
fn time_bell<R: Wait + Clock>(rt: &R, bell: &Bell) -> io::Result<Duration> {
    let begin = Instant::now(rt)?;
    listen(rt, bell);
    begin.elapsed(rt)
}

/// Takes the number, tells so, and puts it back after a second.
fn keep<R: Wait + Clock>(rt: &R, lock: &KeyLock<Number>, taken: &Bell) {
    let (number, hold) = lock.take(rt);
    taken.ring();
    thread::sleep(rt, Duration::from_secs(1));
    lock.put(number, hold);
}

/// How long it takes to get the number once another thread has taken it.
fn time_lock<R: Wait + Clock>(
    rt: &R,
    lock: &KeyLock<Number>,
    taken: &Bell,
) -> io::Result<Duration> {
    listen(rt, taken);
    let begin = Instant::now(rt)?;
    let (number, hold) = lock.take(rt);
    lock.put(number, hold);
    begin.elapsed(rt)
}

/// Prints how long a wait was.
pub fn print_wait<R: Print>(rt: &R, name: &str, waited: Duration) -> io::Result<()> {
    let millis = waited.as_millis();
    println!(rt; "{name:<12} {millis:>6} ms")
}

/// Waits for a bell that rings after a second, and prints how long that was.
pub fn print_bell_wait<R: Wait + Threads + Sync + Clock + Print>(
    rt: &R,
    alloc: Global,
) -> io::Result<()> {
    let bell = Bell::new(alloc).ok_or(AllocError)?;
    let (waited, ()) = join(rt, || time_bell(rt, &bell), || ring_late(rt, &bell));
    print_wait(rt, "bell", waited?)
}

/// Waits for a lock that another thread keeps for a second, and prints how long that was.
pub fn print_lock_wait<R: Wait + Threads + Sync + Clock + Print>(
    rt: &R,
    alloc: Global,
) -> io::Result<()> {
    let lock = KeyLock::new::<Brand>(alloc, Number(0)).map_err(|_| AllocError)?;
    let taken = Bell::new(alloc).ok_or(AllocError)?;
    let (waited, ()) = join(
        rt,
        || time_lock(rt, &lock, &taken),
        || keep(rt, &lock, &taken),
    );
    print_wait(rt, "lock", waited?)
}
