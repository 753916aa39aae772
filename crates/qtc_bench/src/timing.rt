//! Times of works that are compared with one another.
ghost use Rattle.std.specs.Thread.{IsSync};

use std::alloc::Global;
use std::io;
use std::rt::Clock;
use std::sync::Wait;
use std::thread::Threads;
use std::time::Instant;

/// How often each work is done. Its fastest time counts.
const ROUNDS: u32 = 3;

/// Work that is measured.
pub trait Work {
    /// Does the work once. Its answer comes from every part of it, so that no part can be left out.
    /// In a trait the bound `Sync` alone doesn't tell a body that threads may share the handle.
    fn run<R: Wait + Threads + Sync>(&self, rt: &R) -> io::Result<u64>
        requires { IsSync R.row };

    /// Does the work once, and tells how long it took. Work that changes a list makes it before, and frees it after.
    fn time<R: Clock + Wait + Threads + Sync>(&self, rt: &R) -> io::Result<Timed>
        requires { IsSync R.row }
    {
        let begin = Instant::now(rt)?;
        let answer = self.run(rt)?;
        Timed::since(rt, begin, answer)
    }
}

/// A row of a table: work under its name, and the row whose time its own is compared with.
#[derive(Drop)]
pub struct Row<W> {
    pub name: &'static str,
    pub base: Option<usize>,
    pub work: W,
}

impl<W> Row<W> {
    /// A row that is compared with none.
    pub fn new(name: &'static str, work: W) -> Row<W> {
        Row {
            name,
            base: None,
            work,
        }
    }

    /// A row that is compared with the row at `base`, from 0.
    pub fn beside(base: usize, name: &'static str, work: W) -> Row<W> {
        Row {
            name,
            base: Some(base),
            work,
        }
    }
}

/// The time of one work, in nanoseconds, and its answer.
#[derive(Clone, Copy)]
pub struct Timed {
    pub nanos: u64,
    pub answer: u64,
}

impl Timed {
    /// The time from then to now, with this answer.
    pub fn since<R: Clock>(rt: &R, begin: Instant, answer: u64) -> io::Result<Timed> {
        let nanos = begin.elapsed(rt)?.as_nanos();
        Ok(Timed {
            nanos: u64::try_from(nanos).unwrap_or(u64::MAX),
            answer,
        })
    }
}

/// The first time of each row.
fn first_times<R: Clock + Wait + Threads + Sync, W: Work>(
    rt: &R,
    alloc: Global,
    rows: &[Row<W>],
) -> io::Result<Vec<Timed>> {
    let mut times = Vec::new(alloc);
    for row in rows {
        times.push(row.work.time(rt)?)?;
    }
    Ok(times)
}

/// Times each row once more, and keeps the faster times.
fn time_again<R: Clock + Wait + Threads + Sync, W: Work>(
    rt: &R,
    rows: &[Row<W>],
    times: &mut Vec<Timed>,
) -> io::Result<()> {
    for (row, best) in rows.iter().zip(times.iter_mut()) {
        let next = row.work.time(rt)?;
        if next.nanos < best.nanos {
            *best = next;
        }
    }
    Ok(())
}

/// The fastest time of each row. Its rounds go through all rows, so that rows that are compared share what else
/// the machine does.
pub fn best_times<R: Clock + Wait + Threads + Sync, W: Work>(
    rt: &R,
    alloc: Global,
    rows: &[Row<W>],
) -> io::Result<Vec<Timed>> {
    let mut times = first_times(rt, alloc, rows)?;
    for _ in 1..ROUNDS {
        time_again(rt, rows, &mut times)?;
    }
    Ok(times)
}
