//! Tables of times, as the program prints them.
ghost use Rattle.std.specs.Prelude.{◌<◌};

use crate::timing::{Row, Timed, Work, best_times};
use std::alloc::{AllocError, Global};
use std::io;
use std::rt::Clock;
use std::sync::Wait;
use std::thread::Threads;

/// A time for each of `count` calls, in nanoseconds with a tenth.
fn nanos_each(alloc: Global, timed: Timed, count: u64) -> Result<String, AllocError>
    requires { 0 < count }
{
    let tenths = timed.nanos.saturating_mul(10) / count;
    let whole = tenths / 10;
    let tenth = tenths % 10;
    format!(in alloc; "{whole}.{tenth}")
}

/// A time as a multiple of another, with hundredths; `-` where there is no other.
fn ratio(alloc: Global, timed: Timed, base: Option<&Timed>) -> Result<String, AllocError> {
    let Some(base) = base else {
        return String::from_str(alloc, "-");
    };
    let hundredths = timed.nanos.saturating_mul(100) / base.nanos.max(1);
    let whole = hundredths / 100;
    let part = hundredths % 100;
    format!(in alloc; "{whole}.{part:02}")
}

/// Measures the works of a table, each of which makes `count` calls, and prints a row for each.
pub fn print_table<R: Clock + Print + Wait + Threads + Sync, W: Work>(
    rt: &R,
    alloc: Global,
    title: &str,
    count: u64,
    rows: &[Row<W>],
) -> io::Result<()>
    requires { 0 < count }
{
    let times = best_times(rt, alloc, rows)?;
    println!(rt; "{title:<36} {:>10} {:>7} {:>14}", "ns", "ratio", "answer")?;
    for (row, timed) in rows.iter().zip(times.iter()) {
        let nanos = nanos_each(alloc, *timed, count)?;
        let base = row.base.and_then(|place| times.get(place));
        let ratio = ratio(alloc, *timed, base)?;
        let name = row.name;
        let answer = timed.answer;
        println!(rt; "{name:<36} {nanos:>10} {ratio:>7} {answer:>14}")?;
    }
    Ok(())
}
