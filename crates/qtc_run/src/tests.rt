ghost use Rattle.std.specs.Prelude.{◌≡◌, [], ◌≤◌, IsTrue, length, is_some, IfOk};
ghost use Rattle.std.specs.List.{list_all};
ghost use Rattle.qtc_job_file.specs.Lawful.{Lawful};
ghost use Rattle.qtc_outside.specs.Shelf.{text_under};
ghost use Rattle.qtc_run.specs.Loaded.{HasAll};
ghost use Rattle.qtc_run.specs.Sources.{names_of, names_of_all};

use crate::{
    JobReport, Loaded, Placed, Report, RunFault, is_runnable, report_text, run_file, texts_named,
};
use qtc_base::{Bytes, List, NoMemory};
use qtc_events::{Call, Entry, Event, Reached};
use qtc_future::Outcome;
use qtc_job::parse;
use qtc_job_file::{Job, JobFile};
use qtc_outside::{Gate, NoGate};
use qtc_pool_core::PoolEntry;
use std::alloc::Global;
use std::process::Abort;
use std::sync::Wait;
use std::sync::atomic::AtomicU32;
use std::sync::atomic::Ordering::SeqCst;
use std::test::Fail;
use std::thread::{Threads, yield_now};

mod gates;
mod plain;
mod pools;

fn load(rt: &impl Abort, alloc: Global, texts: &[(&[u8], &[u8])]) -> Result<Loaded, NoMemory> {
    let mut loaded = Loaded::new(alloc);
    for (name, text) in texts {
        assert!(rt; loaded.get(name).is_none());
        assert!(rt; text.len() <= 67_108_864);
        let name = Bytes::from_slice(alloc, name)?;
        loaded.add(name, Bytes::from_slice(alloc, text)?)?;
    }
    Ok(loaded)
}

fn has_texts(job: &Job, loaded: &Loaded) -> bool
    ensures { result ≡ list_all (λ name. is_some (text_under loaded.now name)) (names_of job.now.input) }
{
    texts_named(&job.input)
        .iter()
        .all(|name| loaded.get(name.as_slice()).is_some())
}

fn has_all(file: &JobFile, loaded: &Loaded) -> bool
    ensures { IsTrue result → HasAll loaded.now (names_of_all file.now.jobs) }
{
    for job in file.jobs.as_slice() {
        if !has_texts(job, loaded) {
            return false;
        }
    }
    true
}

fn read(rt: &impl Abort, alloc: Global, text: &[u8]) -> Result<JobFile, Fail>
    ensures { IfOk result Lawful }
{
    assert!(rt; text.len() <= 1_048_576);
    Ok(parse(alloc, text)?)
}

// What a job file reports over texts, worked on by so many workers, with the text of it.
fn run<G: Gate, R: Abort + Threads + Wait + Sync>(
    rt: &R,
    alloc: Global,
    text: &[u8],
    texts: &[(&[u8], &[u8])],
    workers: u32,
    gate: &G,
) -> Result<(Report, Bytes), Fail>
    requires { (1 ≤ workers) × (workers ≤ 32) }
{
    let file = read(rt, alloc, text)?;
    let loaded = load(rt, alloc, texts)?;
    assert!(rt; is_runnable(&file));
    assert!(rt; has_all(&file, &loaded));
    let report = run_file(alloc, rt, &file, &loaded, workers, gate)?;
    let text = report_text(alloc, &file, &report)?;
    Ok((report, text))
}

// Whether so many workers report this of a file over texts, and whether a job of it failed.
fn reports<R: Abort + Threads + Wait + Sync>(
    rt: &R,
    alloc: Global,
    file: &[u8],
    texts: &[(&[u8], &[u8])],
    workers: u32,
    want: (&[u8], bool),
) -> Result<bool, Fail>
    requires { (1 ≤ workers) × (workers ≤ 32) }
{
    let (report, text) = run(rt, alloc, file, texts, workers, &NoGate)?;
    Ok(text.as_slice() == want.0 && report.has_failed() == want.1)
}

// Whether 1, 4 and 32 workers do.
fn all_report<R: Abort + Threads + Wait + Sync>(
    rt: &R,
    alloc: Global,
    file: &[u8],
    texts: &[(&[u8], &[u8])],
    want: (&[u8], bool),
) -> Result<bool, Fail> {
    Ok(
        reports(rt, alloc, file, texts, 1, want)?
            && reports(rt, alloc, file, texts, 4, want)?
            && reports(rt, alloc, file, texts, 32, want)?,
    )
}

#[test]
fn jobs_over_one_text_are_reported(rt: HostRuntime) -> Result<(), Fail> {
    for (file, text, want) in [
        (
            b"job a\ninput lines t\nmap digest\n".as_slice(),
            b"abc\n\n".as_slice(),
            b"job a finished 2\nba7816bf8f01cfea414140de5dae2223b00361a396177a9cb410ff61f20015ad\ne3b0c44298fc1c149afbf4c8996fb92427ae41e4649b934ca495991b7852b855\n".as_slice(),
        ),
        (
            b"job a\ninput lines t\nmap same\nblocks 65536\n",
            b"a\nb\nc\nd\ne\n",
            b"job a finished 5\na\nb\nc\nd\ne\n",
        ),
        (
            b"job a\ninput lines t\nfilter contains x\nblocks 3\n",
            b"a\na\na\na\na\na\na\n",
            b"job a finished 0\n",
        ),
        (
            b"job a\ninput lines t\nfilter not contains a\n",
            b"a\nb\nab\nc",
            b"job a finished 2\nb\nc\n",
        ),
        (
            b"job a\ninput pieces 3 t\nmap length\n",
            b"abcdefg",
            b"job a finished 3\n3\n3\n1\n",
        ),
        (
            b"job a\ninput lines t\nmap same\njob b\ninput pieces 1 t\nmap same\n",
            b"",
            b"job a finished 0\njob b finished 0\n",
        ),
    ] {
        assert!(rt;
            all_report(
                &rt,
                rt.alloc(),
                file,
                &[(b"t".as_slice(), text)],
                (want, false)
            )?
        );
    }
    Ok(())
}

#[test]
fn texts_are_found_by_their_names(rt: HostRuntime) -> Result<(), Fail> {
    let alloc = rt.alloc();
    assert!(rt; all_report(&rt, alloc, b"", &[], (b"", false))?);
    let file = b"job a\ninput files t u\\x20v t\nmap length\n";
    let texts = [(b"t".as_slice(), b"ab\nc".as_slice()), (b"u v", b"")];
    assert!(rt;
        all_report(
            &rt,
            alloc,
            file,
            &texts,
            (b"job a finished 3\n4\n0\n4\n", false)
        )?
    );
    let file = b"job a\ninput lines \xc3\xa4\nmap same\n";
    let texts = [(b"\xc3\xa4".as_slice(), b"\xc3\xa4\t\\\nb\n".as_slice())];
    let want = b"job a finished 2\n\xc3\xa4\\x09\\x5c\nb\n";
    assert!(rt; all_report(&rt, alloc, file, &texts, (want, false))?);
    Ok(())
}

#[test]
fn one_bad_item_fails_a_job(rt: HostRuntime) -> Result<(), Fail> {
    for (file, text, want) in [
        (
            b"job a\ninput lines t\nmap number\n".as_slice(),
            b"1\nx".as_slice(),
            b"job a failed 1 x\n".as_slice(),
        ),
        (
            b"job a\ninput lines t\nmap number\njob b\ninput lines t\nfilter contains 7\n",
            b"\n7\n77\n",
            b"job a failed 0 \njob b finished 2\n7\n77\n",
        ),
    ] {
        assert!(rt;
            all_report(
                &rt,
                rt.alloc(),
                file,
                &[(b"t".as_slice(), text)],
                (want, true)
            )?
        );
    }
    Ok(())
}

#[test]
fn one_worker_stops_at_the_first_bad_item(rt: HostRuntime) -> Result<(), Fail> {
    let file = b"job a\ninput lines t\nmap number\n";
    let texts = [(b"t".as_slice(), b"007\n\t\\\xff\nx\n".as_slice())];
    let (report, written) = run(&rt, rt.alloc(), file, &texts, 1, &NoGate)?;
    assert_eq!(rt;
        written.as_slice(),
        b"job a failed 1 \\x09\\x5c\xff\n".as_slice()
    );
    for job in report.jobs.as_slice() {
        assert_eq!(rt; job.calls.as_slice(), [0, 1].as_slice());
    }
    Ok(())
}

#[test]
fn a_text_that_two_jobs_read_counts_twice(rt: HostRuntime) -> Result<(), Fail> {
    let alloc = rt.alloc();
    let mut text = Bytes::with_capacity(alloc, 5_000_000)?;
    for _ in 0..5_000 {
        text.append(&[b'\n'; 1000])?;
    }
    let file = read(
        &rt,
        alloc,
        b"job a\ninput lines t\nmap same\njob b\ninput lines t\nmap same\n",
    )?;
    let loaded = load(&rt, alloc, &[(b"t".as_slice(), text.as_slice())])?;
    assert!(rt; is_runnable(&file));
    assert!(rt; has_all(&file, &loaded));
    let want = RunFault::TooLarge {
        job: 1,
        items: 10_000_000,
        bytes: 0,
    };
    assert!(rt;
        matches!(run_file(alloc, &rt, &file, &loaded, 4, &NoGate), Err(fault) if fault == want)
    );
    Ok(())
}

#[test]
fn other_jobs_are_not_run_yet(rt: HostRuntime) -> Result<(), Fail> {
    for line in [
        b"reduce count\n".as_slice(),
        b"cancel-after 1\n",
        b"suspend-after 1\n",
        b"watch\n",
        b"then sorted\n",
    ] {
        let mut text = Bytes::from_slice(rt.alloc(), b"job a\ninput lines t\nmap same\n")?;
        text.append(line)?;
        assert!(rt; !is_runnable(&read(&rt, rt.alloc(), text.as_slice())?));
    }
    let text = b"job a\ninput lines t\nmap same\njob b\ninput job a\nmap same\n";
    assert!(rt; !is_runnable(&read(&rt, rt.alloc(), text)?));
    Ok(())
}

// Counts its entries, and those that aren't the wanted one at their place.
#[derive(Drop)]
struct Recorder<'a> {
    want: &'a [(u32, u32)],
    entries: AtomicU32,
    wrong: AtomicU32,
}

impl<'a> Gate for Recorder<'a> {
    fn enter(&self, job: u32, index: u32) {
        let before = self.entries.fetch_add(1, SeqCst);
        if self.want.get(before as usize) != Some(&(job, index)) {
            self.wrong.fetch_add(1, SeqCst);
        }
    }
}

// Whether one worker enters the gate with just these jobs and indexes, in this order.
fn enters<R: Abort + Threads + Wait + Sync>(
    rt: &R,
    alloc: Global,
    file: &[u8],
    want: &[(u32, u32)],
) -> Result<bool, Fail> {
    let gate = Recorder {
        want,
        entries: AtomicU32::new(0),
        wrong: AtomicU32::new(0),
    };
    let texts = [(b"t".as_slice(), b"a\n\nb".as_slice()), (b"u", b"ab")];
    run(rt, alloc, file, &texts, 1, &gate)?;
    Ok(gate.entries.load(SeqCst) as usize == want.len() && gate.wrong.load(SeqCst) == 0)
}

#[test]
fn the_gate_is_entered_with_each_job_and_index(rt: HostRuntime) -> Result<(), Fail> {
    let file =
        b"job a\ninput lines t\nmap same\nblocks 2\njob b\ninput pieces 1 u\nfilter contains b\n";
    let want = [(0, 0), (0, 1), (0, 2), (1, 0), (1, 1)];
    assert!(rt; enters(&rt, rt.alloc(), file.as_slice(), want.as_slice())?);
    Ok(())
}

#[test]
fn a_later_job_of_higher_priority_is_entered_first(rt: HostRuntime) -> Result<(), Fail> {
    let file = b"job a\ninput lines t\nmap same\njob b\ninput pieces 1 u\nmap same\npriority 1\n";
    let want = [(1, 0), (1, 1), (0, 0), (0, 1), (0, 2)];
    assert!(rt; enters(&rt, rt.alloc(), file.as_slice(), want.as_slice())?);
    Ok(())
}

const MOST_TURNS: u32 = 10_000_000;

// Holds index 0 until index 1 has entered, for at most `MOST_TURNS` turns; then it is late.
#[derive(Drop)]
struct Meeting {
    has_second: AtomicU32,
    late: AtomicU32,
}

impl Gate for Meeting {
    fn enter(&self, _job: u32, index: u32) {
        if index == 1 {
            self.has_second.store(1, SeqCst);
            return;
        }
        for _ in 0..MOST_TURNS {
            if self.has_second.load(SeqCst) == 1 {
                return;
            }
            yield_now();
        }
        self.late.store(1, SeqCst);
    }
}

#[test]
fn two_workers_are_in_functions_at_once(rt: HostRuntime) -> Result<(), Fail> {
    let gate = Meeting {
        has_second: AtomicU32::new(0),
        late: AtomicU32::new(0),
    };
    let file = b"job a\ninput lines t\nmap same\nblocks 1\n";
    let texts = [(b"t".as_slice(), b"a\nb\n".as_slice())];
    run(&rt, rt.alloc(), file.as_slice(), &texts, 2, &gate)?;
    assert_eq!(rt; gate.late.load(SeqCst), 0);
    Ok(())
}

#[test]
fn blocks_are_reported_in_turn(rt: HostRuntime) -> Result<(), Fail> {
    let file = b"job a\ninput lines t\nfilter longer 0\nblocks 2 1\n";
    let texts = [(b"t".as_slice(), b"a\nb\n\nc\nd".as_slice())];
    let (report, _) = run(&rt, rt.alloc(), file.as_slice(), &texts, 1, &NoGate)?;
    let entry = |caller, call| Entry {
        caller,
        call,
        reached: Reached::Nothing,
    };
    // Number 0 is the pass of the only worker; the next reports for all workers.
    let block = |begin, kept, total| entry(1, Call::Report { begin, kept, total });
    let want = [
        entry(0, Call::Start),
        block(0, 2, 2),
        block(2, 0, 1),
        block(3, 2, 2),
        entry(0, Call::Finish),
    ];
    for job in report.jobs.as_slice() {
        assert_eq!(rt; job.journal.as_slice(), want.as_slice());
        assert!(rt; job.events.is_empty());
    }
    Ok(())
}

#[test]
fn the_pool_tells_each_task_by_its_job(rt: HostRuntime) -> Result<(), Fail> {
    let file = b"job a\ninput lines t\nmap same\njob b\ninput lines t\nmap same\npriority 1\n";
    let texts = [(b"t".as_slice(), b"a\n".as_slice())];
    let (report, _) = run(&rt, rt.alloc(), file.as_slice(), &texts, 1, &NoGate)?;
    let want = [
        PoolEntry::Started { id: 0, priority: 0 },
        PoolEntry::Started {
            id: 32,
            priority: 1,
        },
        PoolEntry::Took { id: 32 },
        PoolEntry::Done { id: 32 },
        PoolEntry::Took { id: 0 },
        PoolEntry::Done { id: 0 },
    ];
    assert_eq!(rt; report.pool.as_slice(), want.as_slice());
    Ok(())
}

// A report of one job that no run gives so far.
fn written(alloc: Global, job: JobReport) -> Result<Bytes, Fail> {
    let file = parse(alloc, b"job a\ninput lines t\nmap same\n")?;
    let mut jobs = List::new(alloc);
    if jobs.push(job).is_err() {
        return Err(Fail::from(NoMemory));
    }
    let report = Report {
        jobs,
        pool: List::new(alloc),
    };
    if report.jobs.len() != file.jobs.len() {
        return Ok(Bytes::new(alloc));
    }
    Ok(report_text(alloc, &file, &report)?)
}

#[test]
fn other_outcomes_and_lines_are_written(rt: HostRuntime) -> Result<(), Fail> {
    let alloc = rt.alloc();
    let mut partial = List::new(alloc);
    for (index, value) in [(0, b"x".as_slice()), (10, b"\\")] {
        let value = Bytes::from_slice(alloc, value)?;
        assert!(rt; partial.push(Placed { index, value }).is_ok());
    }
    let order = List::from_vec(Vec::from_slice(alloc, &[2, 0])?);
    let events = Vec::from_slice(
        alloc,
        &[Event::Started, Event::Ready(0, 2), Event::Canceled],
    )?;
    let job = JobReport {
        ended: Outcome::Canceled,
        partial,
        order: Some(order),
        any: Some(3),
        calls: List::new(alloc),
        journal: List::new(alloc),
        events: List::from_vec(events),
    };
    let want =
        b"job a canceled 2\n0 x\n10 \\x5c\norder 2 0\nany 3\nevent started\nevent ready 0 2\nevent canceled\n";
    assert_eq!(rt; written(alloc, job)?.as_slice(), want.as_slice());
    let job = JobReport {
        ended: Outcome::Values(List::new(alloc)),
        partial: List::new(alloc),
        order: Some(List::new(alloc)),
        any: None,
        calls: List::new(alloc),
        journal: List::new(alloc),
        events: List::new(alloc),
    };
    assert_eq!(rt;
        written(alloc, job)?.as_slice(),
        b"job a finished 0\norder\n".as_slice()
    );
    Ok(())
}
