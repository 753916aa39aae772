//! A lock that is known by its key, beside std's own.
use crate::tables::print_table;
use crate::timing::{Row, Work};
use qtc_lock::{KeyLock, Keyed};
use std::alloc::{AllocError, Global};
use std::io;
use std::marker::Brand;
use std::rt::Clock;
use std::sync::{Mutex, Wait};
use std::thread::{Threads, map_indices};

/// How often a lock is taken and given back, by all threads together.
const PAIRS: usize = 1_000_000;

/// A number, which fits the only key.
#[derive(Drop)]
struct Number(u64);

impl Keyed for Number {
    type Key = ();

    ghost fits = { λ _ _. Unit {0} };
}

/// How a number under a lock is counted up.
#[derive(Clone, Copy)]
enum Count {
    /// Under std's lock, by the thread that made it.
    Mutex,
    /// The same under a lock that is known by its key.
    KeyLock,
    /// Under std's lock, by so many threads.
    MutexAmong(usize),
    /// The same under a lock that is known by its key.
    KeyLockAmong(usize),
}

/// A number that is counted from 0 to `PAIRS`.
#[derive(Drop)]
struct Counting {
    alloc: Global,
    count: Count,
}

impl Work for Counting {
    fn run<R: Wait + Threads + Sync>(&self, rt: &R) -> io::Result<u64> {
        match self.count {
            Count::Mutex => Ok(mutex_alone(rt)),
            Count::KeyLock => key_lock_alone(rt, self.alloc),
            Count::MutexAmong(threads) => mutex_among(rt, self.alloc, threads),
            Count::KeyLockAmong(threads) => key_lock_among(rt, self.alloc, threads),
        }
    }
}

fn count_mutex<R: Wait>(rt: &R, mutex: &Mutex<u64>, pairs: usize) {
    for _ in 0..pairs {
        let mut number = mutex.lock(rt);
        *number = number.wrapping_add(1);
    }
}

fn count_key_lock<R: Wait>(rt: &R, lock: &KeyLock<Number>, pairs: usize) {
    for _ in 0..pairs {
        let (Number(number), hold) = lock.take(rt);
        lock.put(Number(number.wrapping_add(1)), hold);
    }
}

fn new_key_lock(alloc: Global) -> io::Result<KeyLock<Number>> {
    Ok(KeyLock::new::<Brand>(alloc, Number(0)).map_err(|_| AllocError)?)
}

fn mutex_alone<R: Wait>(rt: &R) -> u64 {
    let mutex = Mutex::new(0);
    count_mutex(rt, &mutex, PAIRS);
    mutex.into_inner()
}

fn key_lock_alone<R: Wait>(rt: &R, alloc: Global) -> io::Result<u64> {
    let lock = new_key_lock(alloc)?;
    count_key_lock(rt, &lock, PAIRS);
    let Number(number) = lock.close(rt);
    Ok(number)
}

/// The pairs of one of so many threads.
fn share(threads: usize) -> usize {
    PAIRS / threads.max(1)
}

fn mutex_among<R: Wait + Threads + Sync>(rt: &R, alloc: Global, threads: usize) -> io::Result<u64> {
    let mutex = Mutex::new(0);
    map_indices(
        rt,
        alloc,
        threads,
        &|_| count_mutex(rt, &mutex, share(threads)),
    )?;
    Ok(mutex.into_inner())
}

fn key_lock_among<R: Wait + Threads + Sync>(
    rt: &R,
    alloc: Global,
    threads: usize,
) -> io::Result<u64> {
    let lock = new_key_lock(alloc)?;
    map_indices(
        rt,
        alloc,
        threads,
        &|_| count_key_lock(rt, &lock, share(threads)),
    )?;
    let Number(number) = lock.close(rt);
    Ok(number)
}

/// Measures both locks, and prints a table of them.
pub fn print_locks<R: Wait + Threads + Sync + Clock + Print>(
    rt: &R,
    alloc: Global,
) -> io::Result<()> {
    let counting = |count| Counting { alloc, count };
    let rows = [
        Row::new("Mutex, uncontended", counting(Count::Mutex)),
        Row::beside(0, "KeyLock, uncontended", counting(Count::KeyLock)),
        Row::new("Mutex, 1 thread", counting(Count::MutexAmong(1))),
        Row::beside(2, "KeyLock, 1 thread", counting(Count::KeyLockAmong(1))),
        Row::new("Mutex, 2 threads", counting(Count::MutexAmong(2))),
        Row::beside(4, "KeyLock, 2 threads", counting(Count::KeyLockAmong(2))),
        Row::new("Mutex, 4 threads", counting(Count::MutexAmong(4))),
        Row::beside(6, "KeyLock, 4 threads", counting(Count::KeyLockAmong(4))),
        Row::new("Mutex, 8 threads", counting(Count::MutexAmong(8))),
        Row::beside(8, "KeyLock, 8 threads", counting(Count::KeyLockAmong(8))),
    ];
    print_table(rt, alloc, "locks", PAIRS as u64, &rows)
}
