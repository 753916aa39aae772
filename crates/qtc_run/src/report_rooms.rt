//! How many bytes a report takes where nothing is escaped: so much room is taken before it is written.

use crate::{Placed, Report};
use qtc_base::{Bytes, List};
use qtc_future::Outcome;
use qtc_job_file::JobFile;

/// The most bytes of the line of an event: two numbers of ten digits.
const EVENT_ROOM: usize = b"event ready  \n".len() + 20;

/// How many decimal digits a number has.
fn digit_count(number: u64) -> usize {
    match number.checked_ilog10() {
        Some(log) => (log as usize).saturating_add(1),
        None => 1,
    }
}

/// The lines of values.
fn value_room(values: &[Bytes]) -> usize {
    let mut room = 0usize;
    for value in values {
        room = room.saturating_add(value.len()).saturating_add(1);
    }
    room
}

/// The lines of the results of a canceled job.
fn partial_room(partial: &[Placed]) -> usize {
    let mut room = 0usize;
    for placed in partial {
        room = room
            .saturating_add(digit_count(u64::from(placed.index)))
            .saturating_add(placed.value.len())
            .saturating_add(2);
    }
    room
}

/// The lines of how a job ended.
fn ended_room(ended: &Outcome<Bytes>, partial: &[Placed]) -> usize {
    match ended {
        Outcome::Values(values) => b"job  finished \n"
            .len()
            .saturating_add(digit_count(values.len() as u64))
            .saturating_add(value_room(values.as_slice())),
        Outcome::Canceled => b"job  canceled \n"
            .len()
            .saturating_add(digit_count(partial.len() as u64))
            .saturating_add(partial_room(partial)),
        Outcome::Failed(failure) => b"job  failed  \n"
            .len()
            .saturating_add(digit_count(u64::from(failure.index)))
            .saturating_add(failure.item.len()),
    }
}

/// The line of an order, and that of the place that gave the items.
fn order_room(order: &Option<List<u32>>) -> usize {
    let begins = match order {
        Some(begins) => begins.len(),
        None => 0,
    };
    begins
        .saturating_mul(11)
        .saturating_add(b"order\nany \n".len() + 10)
}

/// The whole report.
pub fn report_room(file: &JobFile, report: &Report) -> usize {
    let mut room = 0usize;
    for (job, done) in file.jobs.as_slice().iter().zip(report.jobs.as_slice()) {
        room = room
            .saturating_add(job.name.len())
            .saturating_add(ended_room(&done.ended, done.partial.as_slice()))
            .saturating_add(order_room(&done.order))
            .saturating_add(done.events.len().saturating_mul(EVENT_ROOM));
    }
    room
}
