ghost use Rattle.std.specs.Prelude.{◌≡◌, ◌++◌, IfOk, OnOk, length};
ghost use Rattle.std.specs.List.{flat_map};
ghost use Rattle.qtc_events.specs.Text.{event_line};
ghost use Rattle.qtc_run.specs.ReportTexts.{any_line, begin_word, ended_text, job_text, order_line, placed_line, report_text as written_report, value_line};

use crate::report_rooms::report_room;
use crate::{JobReport, Placed, Report};
use qtc_base::{Bytes, List, NoMemory, decimal, escape};
use qtc_events::{Event, event_text};
use qtc_future::Outcome;
use qtc_job_file::JobFile;
use std::alloc::Global;

/// Appends the line of a value.
fn append_value(value: &[u8], into: &mut Bytes) -> Result<(), NoMemory>
    ensures { OnOk result (into.new ≡ into.old ++ value_line value.now) }
{
    escape(value, into)?;
    into.append(b"\n")
}

fn append_values(values: &[Bytes], into: &mut Bytes) -> Result<(), NoMemory>
    ensures { OnOk result (into.new ≡ into.old ++ flat_map value_line values.now) }
{
    for value in values {
        append_value(value.as_slice(), into)?;
    }
    Ok(())
}

/// Appends the line of a result of a canceled job.
fn append_placed(placed: &Placed, into: &mut Bytes) -> Result<(), NoMemory>
    ensures { OnOk result (into.new ≡ into.old ++ placed_line placed.now) }
{
    decimal(u128::from(placed.index), into)?;
    into.append(b" ")?;
    append_value(placed.value.as_slice(), into)
}

fn append_partial(partial: &[Placed], into: &mut Bytes) -> Result<(), NoMemory>
    ensures { OnOk result (into.new ≡ into.old ++ flat_map placed_line partial.now) }
{
    for placed in partial {
        append_placed(placed, into)?;
    }
    Ok(())
}

/// Appends how a job ended, after its name, and its results.
fn append_ended(
    ended: &Outcome<Bytes>,
    partial: &[Placed],
    into: &mut Bytes,
) -> Result<(), NoMemory>
    ensures { OnOk result (into.new ≡ into.old ++ ended_text partial.now ended.now) }
{
    match ended {
        Outcome::Values(values) => {
            into.append(b" finished ")?;
            decimal(values.len() as u128, into)?;
            into.append(b"\n")?;
            append_values(values.as_slice(), into)
        }
        Outcome::Canceled => {
            into.append(b" canceled ")?;
            decimal(partial.len() as u128, into)?;
            into.append(b"\n")?;
            append_partial(partial, into)
        }
        Outcome::Failed(failure) => {
            into.append(b" failed ")?;
            decimal(u128::from(failure.index), into)?;
            into.append(b" ")?;
            append_value(failure.item.as_slice(), into)
        }
    }
}

fn append_begins(begins: &[u32], into: &mut Bytes) -> Result<(), NoMemory>
    ensures { OnOk result (into.new ≡ into.old ++ flat_map begin_word begins.now) }
{
    for begin in begins {
        into.append(b" ")?;
        decimal(u128::from(*begin), into)?;
    }
    Ok(())
}

/// Appends the line of the order, where there is one.
fn append_order(order: &Option<List<u32>>, into: &mut Bytes) -> Result<(), NoMemory>
    ensures { OnOk result (into.new ≡ into.old ++ order_line order.now) }
{
    let Some(begins) = order else {
        return Ok(());
    };
    into.append(b"order")?;
    append_begins(begins.as_slice(), into)?;
    into.append(b"\n")
}

/// Appends the line of the place that gave the items, where there is one.
fn append_any(any: Option<u32>, into: &mut Bytes) -> Result<(), NoMemory>
    ensures { OnOk result (into.new ≡ into.old ++ any_line any) }
{
    let Some(place) = any else {
        return Ok(());
    };
    into.append(b"any ")?;
    decimal(u128::from(place), into)?;
    into.append(b"\n")
}

fn append_events(events: &[Event], into: &mut Bytes) -> Result<(), NoMemory>
    ensures { OnOk result (into.new ≡ into.old ++ flat_map event_line events.now) }
{
    for event in events {
        event_text(event, into)?;
    }
    Ok(())
}

/// Appends the lines of a job.
fn append_job(name: &[u8], report: &JobReport, into: &mut Bytes) -> Result<(), NoMemory>
    ensures { OnOk result (into.new ≡ into.old ++ job_text name.now report.now) }
{
    into.append(b"job ")?;
    into.append(name)?;
    append_ended(&report.ended, report.partial.as_slice(), into)?;
    append_order(&report.order, into)?;
    append_any(report.any, into)?;
    append_events(report.events.as_slice(), into)
}

/// The text of a report, job by job in the order of the file. First `job NAME finished N` and the values, one a line;
/// `job NAME canceled A` and the accepted results, each `INDEX VALUE` on a line; or `job NAME failed I ITEM`. Then
/// `order B1 B2 ..`, `any I` and the lines of the events, where there are such. Values and items are escaped. Err is
/// want of memory.
pub fn report_text(alloc: Global, file: &JobFile, report: &Report) -> Result<Bytes, NoMemory>
    requires { length report.now.jobs ≡ length file.now.jobs }
    ensures { IfOk result (λ text. text ≡ written_report file.now report.now) }
{
    let mut text = Bytes::with_capacity(alloc, report_room(file, report))?;
    for (job, done) in file.jobs.as_slice().iter().zip(report.jobs.as_slice()) {
        append_job(job.name.as_slice(), done, &mut text)?;
    }
    Ok(text)
}
