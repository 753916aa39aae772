//! Claims of ranges, beside a bare word of std.
ghost use Rattle.std.specs.Prelude.{◌≡◌};

use crate::tables::print_table;
use crate::timing::{Row, Work};
use qtc_claim::{Counter, Seat};
use std::alloc::{AllocError, Global};
use std::io;
use std::rt::Clock;
use std::sync::Wait;
use std::sync::atomic::AtomicU64;
use std::sync::atomic::Ordering::SeqCst;
use std::thread::{Threads, map_indices, map_vec};

/// The indexes that are claimed, by all threads together.
const INDEXES: u32 = 8_388_608;

/// How many a claim takes.
const SIZE: u32 = 16;

/// How many claims that makes.
const CLAIMS: u64 = 524_288;

/// How the indexes are claimed. Each claim is a load and an addition.
#[derive(Clone, Copy)]
enum Claim {
    /// From a bare word, by the thread that made it.
    Word,
    /// From a counter.
    Counter,
    /// From a bare word, by so many threads.
    WordAmong(usize),
    /// From a counter, by so many threads.
    CounterAmong(u32),
}

/// All indexes, claimed. The answer is the sum of the numbers at which claims begin.
#[derive(Drop)]
struct Claiming {
    alloc: Global,
    claim: Claim,
}

impl Work for Claiming {
    fn run<R: Wait + Threads + Sync>(&self, rt: &R) -> io::Result<u64> {
        match self.claim {
            Claim::Word => Ok(drain_word(&AtomicU64::new(0))),
            Claim::Counter => counter_alone(self.alloc),
            Claim::WordAmong(threads) => word_among(rt, self.alloc, threads),
            Claim::CounterAmong(threads) => counter_among(rt, self.alloc, threads),
        }
    }
}

/// Claims from the word until there is nothing left.
fn drain_word(word: &AtomicU64) -> u64 {
    let mut sum: u64 = 0;
    for _ in 0..u64::MAX {
        if word.load(SeqCst) >= INDEXES as u64 {
            break;
        }
        let begin = word.fetch_add(SIZE as u64, SeqCst);
        if begin >= INDEXES as u64 {
            break;
        }
        sum = sum.wrapping_add(begin);
    }
    sum
}

/// Claims from the counter until there is nothing left.
fn drain_counter(counter: &Counter, mut seat: Seat) -> u64
    requires { seat.of ≡ counter.now }
{
    let mut sum: u64 = 0;
    for _ in 0..u64::MAX {
        let Some(piece) = counter.claim(&mut seat, SIZE) else {
            break;
        };
        sum = sum.wrapping_add(piece.range().begin as u64);
    }
    sum
}

fn counter_alone(alloc: Global) -> io::Result<u64> {
    let Ok((counter, mut seats, _tally)) = Counter::new(alloc, INDEXES, 1) else {
        return Err(AllocError.into());
    };
    let seat = seats.pop().unwrap();
    Ok(drain_counter(&counter, seat))
}

fn sum_of(parts: &[u64]) -> u64 {
    let mut sum: u64 = 0;
    for part in parts {
        sum = sum.wrapping_add(*part);
    }
    sum
}

fn word_among<R: Wait + Threads + Sync>(rt: &R, alloc: Global, threads: usize) -> io::Result<u64> {
    let word = AtomicU64::new(0);
    let parts = map_indices(rt, alloc, threads, &|_| drain_word(&word))?;
    Ok(sum_of(&parts))
}

fn counter_among<R: Wait + Threads + Sync>(rt: &R, alloc: Global, threads: u32) -> io::Result<u64> {
    let threads = threads.clamp(1, 32);
    let Ok((counter, seats, _tally)) = Counter::new(alloc, INDEXES, threads) else {
        return Err(AllocError.into());
    };
    let parts = map_vec(
        rt,
        seats,
        &|seat: Seat| -> u64
            requires { seat.of ≡ counter }
        { drain_counter(&counter, seat) },
    )?;
    Ok(sum_of(&parts))
}

/// Measures claims from both, and prints a table of them.
pub fn print_claims<R: Wait + Threads + Sync + Clock + Print>(
    rt: &R,
    alloc: Global,
) -> io::Result<()> {
    let claiming = |claim| Claiming { alloc, claim };
    let rows = [
        Row::new("load and fetch_add, uncontended", claiming(Claim::Word)),
        Row::beside(0, "claim, uncontended", claiming(Claim::Counter)),
        Row::new(
            "load and fetch_add, 2 threads",
            claiming(Claim::WordAmong(2)),
        ),
        Row::beside(2, "claim, 2 threads", claiming(Claim::CounterAmong(2))),
        Row::new(
            "load and fetch_add, 4 threads",
            claiming(Claim::WordAmong(4)),
        ),
        Row::beside(4, "claim, 4 threads", claiming(Claim::CounterAmong(4))),
        Row::new(
            "load and fetch_add, 8 threads",
            claiming(Claim::WordAmong(8)),
        ),
        Row::beside(6, "claim, 8 threads", claiming(Claim::CounterAmong(8))),
    ];
    print_table(rt, alloc, "claims", CLAIMS, &rows)
}
