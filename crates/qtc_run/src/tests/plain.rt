//! Runs are compared with a plain list program over job files and texts that are made by chance.

ghost use Rattle.std.specs.Prelude.{◌<◌, ◌≤◌};

use super::run;
use crate::Report;
use qtc_base::{Bytes, Items, List, NoMemory, Value, decimal, escape};
use qtc_future::{Failure, Outcome};
use qtc_job::parse;
use qtc_job_file::{Input, Job, JobFile};
use qtc_ops::{ItemFault, ItemFn, ItemOp, OpFn};
use qtc_outside::NoGate;
use std::alloc::Global;
use std::test::Fail;

/// Numbers that follow from a seed.
#[derive(Drop)]
struct Chance {
    state: u64,
}

impl Chance {
    /// A number below `bound`.
    fn below(&mut self, bound: usize) -> usize
        ensures { 1 ≤ bound → result < bound }
    {
        self.state = self
            .state
            .wrapping_mul(6_364_136_223_846_793_005)
            .wrapping_add(1_442_695_040_888_963_407);
        (self.state >> 33) as usize % bound.max(1)
    }

    /// One of the words.
    fn word(&mut self, words: &[&'static [u8]]) -> &'static [u8] {
        let place = self.below(words.len());
        match words.get(place) {
            Some(word) => word,
            None => b"",
        }
    }

    /// A text of lines, some of them numbers, some empty, the last one perhaps without its LF.
    fn text(&mut self, alloc: Global) -> Result<Bytes, NoMemory> {
        let mut text = Bytes::new(alloc);
        for _ in 0..self.below(60) {
            text.append(self.word(&[
                b"7", b"07", b"x", b"a b", b"\t", b"\\", b"\n", b"\n", b"\n", b"\n\n",
            ]))?;
        }
        Ok(text)
    }

    /// A job file of up to three jobs over the texts t and u.
    fn file(&mut self, alloc: Global) -> Result<Bytes, NoMemory> {
        let mut file = Bytes::new(alloc);
        for name in [b"a".as_slice(), b"b", b"c"].iter().take(self.below(4)) {
            file.append(b"job ")?;
            file.append(name)?;
            file.append(self.word(&[
                b"\ninput lines t\n",
                b"\ninput lines u\n",
                b"\ninput files u t u\n",
                b"\ninput pieces 3 t\n",
            ]))?;
            file.append(self.word(&[
                b"map same\n",
                b"map length\n",
                b"map field 2\n",
                b"map number\n",
                b"filter contains 7\n",
                b"filter not wildcard ?*\n",
                b"filter longer 1\n",
            ]))?;
            file.append(self.word(&[
                b"",
                b"blocks 1\n",
                b"blocks 2 3\n",
                b"blocks 65536\n",
                b"blocks 5 1 1\n",
            ]))?;
        }
        Ok(file)
    }
}

/// The one of the texts t and u that has this name.
fn text_of<'a>(name: &Bytes, t: &'a [u8], u: &'a [u8]) -> &'a [u8] {
    if name.as_slice() == b"t".as_slice() {
        t
    } else {
        u
    }
}

/// The items of an input over the texts t and u: cut byte by byte.
fn items_of(alloc: Global, input: &Input, t: &[u8], u: &[u8]) -> Result<Items, Fail> {
    let mut items = Items::new(alloc);
    match input {
        Input::Lines(name) => {
            let mut line = Bytes::new(alloc);
            for byte in text_of(name, t, u) {
                if *byte == b'\n' {
                    items.push(line.as_slice())?;
                    line.truncate(0);
                } else {
                    line.append(&[*byte])?;
                }
            }
            if !line.is_empty() {
                items.push(line.as_slice())?;
            }
        }
        Input::Files(names) => {
            for name in names.as_slice() {
                items.push(text_of(name, t, u))?;
            }
        }
        _ => {
            for piece in t.chunks(3) {
                items.push(piece)?;
            }
        }
    }
    Ok(items)
}

/// What a function makes of the items: it is applied to each, and each kept text is pushed.
fn applied<F: ItemFn>(
    alloc: Global,
    function: &mut F,
    items: &Items,
) -> Result<Outcome<Bytes>, NoMemory> {
    let mut values = List::new(alloc);
    for index in 0..items.len() {
        let item = items.get(index).unwrap();
        match function.apply(index, item) {
            Ok(Some(text)) => match values.push(text) {
                Ok(()) => {}
                Err(_text) => return Err(NoMemory),
            },
            Ok(None) => {}
            Err(ItemFault::Bad) => {
                let item = Bytes::from_slice(alloc, item)?;
                return Ok(Outcome::Failed(Failure { index, item }));
            }
            Err(ItemFault::Memory) => return Err(NoMemory),
        }
    }
    Ok(Outcome::Values(values))
}

fn append_line(value: &[u8], into: &mut Bytes) -> Result<(), NoMemory> {
    escape(value, into)?;
    into.append(b"\n")
}

/// Appends how a job ended, after its name.
fn append_ended(ended: &Outcome<Bytes>, into: &mut Bytes) -> Result<(), NoMemory> {
    match ended {
        Outcome::Values(values) => {
            into.append(b" finished ")?;
            decimal(values.len() as u128, into)?;
            into.append(b"\n")?;
            for value in values.as_slice() {
                append_line(value.as_slice(), into)?;
            }
        }
        Outcome::Failed(failure) => {
            into.append(b" failed ")?;
            decimal(u128::from(failure.index), into)?;
            into.append(b" ")?;
            append_line(failure.item.as_slice(), into)?;
        }
        Outcome::Canceled => {}
    }
    Ok(())
}

/// Whether an operation finds this item of the items bad.
fn is_bad(alloc: Global, op: &ItemOp, items: &Items, failure: &Failure) -> Result<bool, NoMemory> {
    let mut function = OpFn::new(alloc, op.copy()?);
    let Some(item) = items.get(failure.index) else {
        return Ok(false);
    };
    let is_refused = matches!(function.apply(failure.index, item), Err(ItemFault::Bad));
    Ok(is_refused && item == failure.item.as_slice())
}

/// Appends the lines of a job. Where it fails, many workers may have met another bad item first.
fn append_job(
    alloc: Global,
    job: &Job,
    items: &Items,
    reported: &Outcome<Bytes>,
    workers: u32,
    into: &mut Bytes,
) -> Result<(), NoMemory> {
    into.append(b"job ")?;
    into.append(job.name.as_slice())?;
    let mut function = OpFn::new(alloc, job.op.copy()?);
    let ended = applied(alloc, &mut function, items)?;
    if let (Outcome::Failed(_), Outcome::Failed(failure)) = (&ended, reported) {
        if workers > 1 && is_bad(alloc, &job.op, items, failure)? {
            return append_ended(reported, into);
        }
    }
    append_ended(&ended, into)
}

/// The report of a file, which so many workers worked on.
fn plain_report(
    alloc: Global,
    file: &JobFile,
    report: &Report,
    workers: u32,
    t: &[u8],
    u: &[u8],
) -> Result<Bytes, Fail> {
    let mut text = Bytes::new(alloc);
    for (job, done) in file
        .jobs
        .as_slice()
        .iter()
        .zip(report.jobs.as_slice().iter())
    {
        let items = items_of(alloc, &job.input, t, u)?;
        append_job(alloc, job, &items, &done.ended, workers, &mut text)?;
    }
    Ok(text)
}

/// A number of workers.
fn some_workers(chance: &mut Chance) -> u32
    ensures { (1 ≤ result) × (result ≤ 32) }
{
    1 + chance.below(32) as u32
}

#[test]
fn runs_report_what_a_plain_list_program_does(rt: HostRuntime) -> Result<(), Fail> {
    let alloc = rt.alloc();
    let seed = 20_261_201;
    println!(rt; "seed {seed}")?;
    let mut chance = Chance { state: seed };
    let mut failed = 0u32;
    for _ in 0..60 {
        let text = chance.file(alloc)?;
        let t = chance.text(alloc)?;
        let u = chance.text(alloc)?;
        let workers = some_workers(&mut chance);
        let texts = [(b"t".as_slice(), t.as_slice()), (b"u", u.as_slice())];
        let (report, written) = run(&rt, alloc, text.as_slice(), &texts, workers, &NoGate)?;
        assert!(rt; text.len() <= 1_048_576);
        let file = parse(alloc, text.as_slice())?;
        let want = plain_report(alloc, &file, &report, workers, t.as_slice(), u.as_slice())?;
        assert_eq!(rt; written.as_slice(), want.as_slice());
        failed = failed.saturating_add(u32::from(report.has_failed()));
    }
    assert!(rt; failed > 4 && failed < 56);
    Ok(())
}
