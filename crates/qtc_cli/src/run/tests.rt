ghost use Rattle.std.specs.Prelude.{◌≢◌};

use super::*;
use crate::check::check_words;
use qtc_base::{List, NoMemory};
use qtc_outside::{MemSink, MemTexts, NoGate, SureSink, SureTexts};
use std::alloc::AllocError;
use std::test::Fail;

mod gates;

const USAGE: &[u8] = b"qtc: usage: run [--workers N] JOB, check JOB, sample [--workers W] N\n";

const SAME: &[u8] = b"job a\ninput lines t\nmap same\n";

fn word_list(alloc: Global, words: &[&str]) -> Result<Vec<String>, AllocError> {
    let mut list = Vec::new(alloc);
    for word in words {
        list.push(String::from_str(alloc, word)?)?;
    }
    Ok(list)
}

fn push_text(
    alloc: Global,
    texts: &mut List<(Bytes, Bytes)>,
    name: &[u8],
    text: &[u8],
) -> Result<(), NoMemory> {
    let pair = (
        Bytes::from_slice(alloc, name)?,
        Bytes::from_slice(alloc, text)?,
    );
    texts.push(pair).map_err(|_| NoMemory)
}

/// The job file `j`, and these texts.
fn texts_of(
    alloc: Global,
    file: &[u8],
    others: &[(&[u8], &[u8])],
) -> Result<List<(Bytes, Bytes)>, NoMemory> {
    let mut texts = List::new(alloc);
    push_text(alloc, &mut texts, b"j", file)?;
    for (name, text) in others {
        push_text(alloc, &mut texts, name, text)?;
    }
    Ok(texts)
}

/// A job file with its texts, and what a call over them ends with and writes.
struct Row {
    file: &'static [u8],
    texts: &'static [(&'static [u8], &'static [u8])],
    status: u8,
    out: &'static [u8],
    err: &'static [u8],
}

/// The words of a call, and how it ends.
struct Case {
    words: &'static [&'static str],
    row: Row,
}

const RUN: &[&str] = &["run", "j"];

const CHECK: &[&str] = &["check", "j"];

/// Runs, which end in the same way with every number of workers.
const RUNS: &[Row] = &[
    Row {
        file: b"job a\ninput lines t\nmap digest\n",
        texts: &[(b"t", b"abc\n\n")],
        status: 0,
        out: b"job a finished 2\nba7816bf8f01cfea414140de5dae2223b00361a396177a9cb410ff61f20015ad\ne3b0c44298fc1c149afbf4c8996fb92427ae41e4649b934ca495991b7852b855\n",
        err: b"",
    },
    Row {
        file: b"job a\ninput lines t\nmap same\nblocks 65536\n",
        texts: &[(b"t", b"a\nb\nc\nd\ne\n")],
        status: 0,
        out: b"job a finished 5\na\nb\nc\nd\ne\n",
        err: b"",
    },
    Row {
        file: b"job a\ninput lines t\nfilter contains x\nblocks 3\n",
        texts: &[(b"t", b"a\na\na\na\na\na\na\n")],
        status: 0,
        out: b"job a finished 0\n",
        err: b"",
    },
    Row {
        file: b"job a\ninput lines t\nfilter not contains a\n",
        texts: &[(b"t", b"a\nb\nab\nc")],
        status: 0,
        out: b"job a finished 2\nb\nc\n",
        err: b"",
    },
    Row {
        file: b"job a\ninput lines t\nmap number\n",
        texts: &[(b"t", b"1\nx")],
        status: 1,
        out: b"job a failed 1 x\n",
        err: b"",
    },
    Row {
        file: b"job a\ninput pieces 3 t\nmap length\n",
        texts: &[(b"t", b"abcdefg")],
        status: 0,
        out: b"job a finished 3\n3\n3\n1\n",
        err: b"",
    },
    Row {
        file: b"job a\ninput lines t\nmap same\n",
        texts: &[(b"t", b"")],
        status: 0,
        out: b"job a finished 0\n",
        err: b"",
    },
    Row {
        file: b"job a\ninput lines t\nmap same\n",
        texts: &[(b"t", b"a\tb\\")],
        status: 0,
        out: b"job a finished 1\na\\x09b\\x5c\n",
        err: b"",
    },
    Row {
        file: b"",
        texts: &[],
        status: 0,
        out: b"",
        err: b"",
    },
    // Several jobs over texts of escaped names, one of them in two jobs, and a failure in the middle.
    Row {
        file: b"job a\ninput lines a\\x20b\nmap same\njob b\ninput lines a\\x20b\nmap number\njob c\ninput files t a\\x20b\nmap length\n",
        texts: &[(b"a b", b"\xff\\\n7\n"), (b"t", b"12345")],
        status: 1,
        out: b"job a finished 2\n\xff\\x5c\n7\njob b failed 0 \xff\\x5c\njob c finished 2\n5\n5\n",
        err: b"",
    },
    Row {
        file: b"job a\nfoo\ninput lines t\nmap same\n",
        texts: &[(b"t", b"")],
        status: 3,
        out: b"",
        err: b"qtc: bad job file: line 2 code 1\n",
    },
    Row {
        file: SAME,
        texts: &[],
        status: 4,
        out: b"",
        err: b"qtc: read fault\n",
    },
    // What isn't run so far is said before a text is asked for.
    Row {
        file: b"job a\ninput lines t\nmap same\nreduce count\n",
        texts: &[],
        status: 8,
        out: b"",
        err: b"qtc: not yet\n",
    },
    // The number of workers that the file says.
    Row {
        file: b"workers 1\njob a\ninput lines t\nmap length\nblocks 1\n",
        texts: &[(b"t", b"a\n\nbcd")],
        status: 0,
        out: b"job a finished 3\n1\n0\n3\n",
        err: b"",
    },
];

const CASES: &[Case] = &[
    Case {
        words: CHECK,
        row: Row {
            file: SAME,
            texts: &[],
            status: 0,
            out: b"workers 4\njob a\ninput lines t\nmap same\nblocks 16\npriority 0\n",
            err: b"",
        },
    },
    Case {
        words: CHECK,
        row: Row {
            file: b"",
            texts: &[],
            status: 0,
            out: b"workers 4\n",
            err: b"",
        },
    },
    Case {
        words: CHECK,
        row: Row {
            file: b"job a\n",
            texts: &[],
            status: 3,
            out: b"",
            err: b"qtc: bad job file: line 1 code 8\n",
        },
    },
    // A job file may have any name.
    Case {
        words: &["run", "--workers"],
        row: Row {
            file: SAME,
            texts: &[],
            status: 4,
            out: b"",
            err: b"qtc: read fault\n",
        },
    },
];

/// Words that have no form.
const WITHOUT_FORM: &[&[&str]] = &[
    &[],
    &["run"],
    &["run", "a", "b"],
    &["run", "--workers", "0", "j"],
    &["run", "--workers", "33", "j"],
    &["run", "--workers", "4"],
    &["sample", "0"],
];

/// How a call with them ends.
const USAGE_IS_TOLD: Row = Row {
    file: SAME,
    texts: &[],
    status: 2,
    out: b"",
    err: USAGE,
};

/// Whether a call with these words over the job file and its texts ends as it should.
fn ends_as<R: Threads + Wait + Sync>(
    rt: &R,
    alloc: Global,
    words: &[&str],
    row: &Row,
) -> Result<bool, Fail> {
    let words = word_list(alloc, words)?;
    let texts = texts_of(alloc, row.file, row.texts)?;
    let mut texts = MemTexts::new(texts, 7, List::new(alloc));
    let mut out = MemSink::new(alloc, 5, List::new(alloc));
    let mut err = MemSink::new(alloc, 5, List::new(alloc));
    let ended = run_words(rt, alloc, &words, &mut texts, &mut out, &mut err, &NoGate);
    Ok(ended.status == row.status && out.text() == row.out && err.text() == row.err)
}

#[test]
fn words_and_job_files_end_as_they_should(rt: HostRuntime) -> Result<(), Fail> {
    for (place, case) in CASES.iter().enumerate() {
        assert!(rt;
            ends_as(&rt, rt.alloc(), case.words, &case.row)?,
            "case {place}"
        );
    }
    for (place, words) in WITHOUT_FORM.iter().enumerate() {
        assert!(rt;
            ends_as(&rt, rt.alloc(), words, &USAGE_IS_TOLD)?,
            "words {place}"
        );
    }
    Ok(())
}

#[test]
fn runs_end_the_same_with_any_number_of_workers(rt: HostRuntime) -> Result<(), Fail> {
    for words in [
        RUN,
        &["run", "--workers", "1", "j"],
        &["run", "--workers", "4", "j"],
        &["run", "--workers", "32", "j"],
    ] {
        for (place, row) in RUNS.iter().enumerate() {
            assert!(rt; ends_as(&rt, rt.alloc(), words, row)?, "run {place}");
        }
    }
    Ok(())
}

/// The numbers below a count whose digits have these among them.
fn numbers_below(alloc: Global, count: u32, digits: &str) -> Result<Vec<String>, AllocError> {
    let mut numbers = Vec::new(alloc);
    for number in 0..count {
        let text = format!(in alloc; "{number}")?;
        if text.contains(digits) {
            numbers.push(text)?;
        }
    }
    Ok(numbers)
}

/// Appends each value on a line.
fn append_lines(text: &mut Vec<u8>, values: &[String]) -> Result<(), AllocError> {
    for value in values {
        text.extend_from_slice(value.as_bytes())?;
        text.extend_from_slice(b"\n")?;
    }
    Ok(())
}

/// Whether so many workers report the numbers below 500, and those with a 7, as they should.
fn reports_numbers<R: Threads + Wait + Sync>(
    rt: &R,
    alloc: Global,
    workers: &str,
) -> Result<bool, Fail> {
    let file =
        b"job a\ninput lines t\nmap same\nblocks 1 3\njob b\ninput lines t\nfilter contains 7\nblocks 2\n";
    let all = numbers_below(alloc, 500, "")?;
    let mut text = Vec::new(alloc);
    append_lines(&mut text, all.as_slice())?;
    let mut want = Vec::from_slice(alloc, b"job a finished 500\n")?;
    append_lines(&mut want, all.as_slice())?;
    want.extend_from_slice(b"job b finished 95\n")?;
    append_lines(&mut want, numbers_below(alloc, 500, "7")?.as_slice())?;
    let words = word_list(alloc, &["run", "--workers", workers, "j"])?;
    let texts = texts_of(
        alloc,
        file.as_slice(),
        &[(b"t".as_slice(), text.as_slice())],
    )?;
    let mut texts = MemTexts::new(texts, 4096, List::new(alloc));
    let mut out = MemSink::new(alloc, 4096, List::new(alloc));
    let mut err = MemSink::new(alloc, 100, List::new(alloc));
    let ended = run_words(rt, alloc, &words, &mut texts, &mut out, &mut err, &NoGate);
    Ok(ended.status == 0 && out.text() == want.as_slice())
}

#[test]
fn many_blocks_are_reported_in_order(rt: HostRuntime) -> Result<(), Fail> {
    for workers in ["1", "4", "32"] {
        assert!(rt;
            reports_numbers(&rt, rt.alloc(), workers)?,
            "{workers} workers"
        );
    }
    Ok(())
}

#[test]
fn a_check_takes_no_other_words(rt: HostRuntime) -> Result<(), Fail> {
    let alloc = rt.alloc();
    for (words, status, text) in [(CHECK, 0, b"".as_slice()), (RUN, 2, USAGE)] {
        let words = word_list(alloc, words)?;
        let mut texts = MemTexts::new(texts_of(alloc, SAME, &[])?, 7, List::new(alloc));
        let mut out = MemSink::new(alloc, 100, List::new(alloc));
        let mut err = MemSink::new(alloc, 100, List::new(alloc));
        assert_eq!(rt;
            check_words(alloc, &words, &mut texts, &mut out, &mut err),
            status
        );
        assert_eq!(rt; err.text(), text);
    }
    Ok(())
}

/// Over a source and a sink that never fail there is no read fault and no write fault.
fn run_surely<R: Threads + Wait + Sync>(
    rt: &R,
    alloc: Global,
    words: &[String],
    texts: &mut SureTexts,
    out: &mut SureSink,
    err: &mut SureSink,
) -> Ended
    ensures { (result.status ≢ 4) × (result.status ≢ 5) }
{
    run_words(rt, alloc, words, texts, out, err, &NoGate)
}

/// The calls of the jobs that were reported, one job after the other.
fn calls_of(alloc: Global, ended: &Ended) -> Result<Vec<u32>, AllocError> {
    let mut calls = Vec::new(alloc);
    if let Some(report) = &ended.report {
        for job in report.jobs.as_slice() {
            calls.extend_from_slice(job.calls.as_slice())?;
        }
    }
    Ok(calls)
}

#[test]
fn the_jobs_are_reported_in_order(rt: HostRuntime) -> Result<(), Fail> {
    let alloc = rt.alloc();
    let words = word_list(alloc, RUN)?;
    let file = b"job a\ninput lines t\nmap digest\njob b\ninput pieces 2 t\nmap number\n";
    let texts = texts_of(alloc, file.as_slice(), &[(b"t".as_slice(), b"12\nx\n")])?;
    let mut texts = SureTexts::new(texts);
    let mut out = SureSink::new(alloc, 1000)?;
    let mut err = SureSink::new(alloc, 0)?;
    let ended = run_surely(&rt, alloc, &words, &mut texts, &mut out, &mut err);
    assert_eq!(rt; ended.status, 1);
    assert_eq!(rt;
        calls_of(alloc, &ended)?.as_slice(),
        [0, 1, 0, 1].as_slice()
    );
    Ok(())
}

#[test]
fn a_fault_of_the_sink_leaves_a_front(rt: HostRuntime) -> Result<(), Fail> {
    let alloc = rt.alloc();
    let words = word_list(alloc, RUN)?;
    let texts = texts_of(alloc, SAME, &[(b"t", b"x")])?;
    let mut texts = MemTexts::new(texts, 7, List::new(alloc));
    let mut fails = List::new(alloc);
    assert_eq!(rt; fails.push(1), Ok(()));
    let mut out = MemSink::new(alloc, 4, fails);
    let mut err = MemSink::new(alloc, 100, List::new(alloc));
    let ended = run_words(&rt, alloc, &words, &mut texts, &mut out, &mut err, &NoGate);
    assert_eq!(rt; ended.status, 5);
    assert_eq!(rt; calls_of(alloc, &ended)?.as_slice(), [0].as_slice());
    assert_eq!(rt; out.text(), b"job ".as_slice());
    assert_eq!(rt; err.text(), b"qtc: write fault\n".as_slice());
    Ok(())
}

#[test]
fn faults_of_the_error_sink_change_nothing(rt: HostRuntime) -> Result<(), Fail> {
    let alloc = rt.alloc();
    let words = word_list(alloc, &["walk"])?;
    let mut texts = SureTexts::new(List::new(alloc));
    let mut fails = List::new(alloc);
    assert_eq!(rt; fails.push(1), Ok(()));
    let mut out = MemSink::new(alloc, 100, List::new(alloc));
    let mut err = MemSink::new(alloc, 5, fails);
    let ended = run_words(&rt, alloc, &words, &mut texts, &mut out, &mut err, &NoGate);
    assert_eq!(rt; ended.status, 2);
    assert!(rt; ended.report.is_none());
    assert_eq!(rt; out.text(), b"".as_slice());
    assert_eq!(rt; err.text(), b"qtc: ".as_slice());
    Ok(())
}

/// A text of one byte, over and over.
fn filled(alloc: Global, byte: u8, count: usize) -> Result<Bytes, NoMemory> {
    let block = [byte; 4096];
    let mut text = Bytes::with_capacity(alloc, count)?;
    for _ in 0..count / 4096 {
        text.append(&block)?;
    }
    text.append(&block[..count % 4096])?;
    Ok(text)
}

/// How a run over this job file and these texts ends; 0 where it says what it should not.
fn status_of_run<R: Threads + Wait + Sync>(
    rt: &R,
    alloc: Global,
    file: &[u8],
    others: &[(&[u8], &[u8])],
) -> Result<u8, Fail> {
    let words = word_list(alloc, RUN)?;
    let texts = texts_of(alloc, file, others)?;
    let mut texts = MemTexts::new(texts, usize::MAX, List::new(alloc));
    let mut out = MemSink::new(alloc, usize::MAX, List::new(alloc));
    let mut err = MemSink::new(alloc, 100, List::new(alloc));
    let ended = run_words(rt, alloc, &words, &mut texts, &mut out, &mut err, &NoGate);
    if ended.status == 7
        && (!out.text().is_empty() || err.text() != b"qtc: too large\n".as_slice())
    {
        return Ok(0);
    }
    Ok(ended.status)
}

#[test]
fn the_limits_of_a_job_file_and_a_text_are_kept(rt: HostRuntime) -> Result<(), Fail> {
    let alloc = rt.alloc();
    for (count, status) in [(1_048_576, 0), (1_048_577, 7)] {
        let file = filled(alloc, b'\n', count)?;
        assert_eq!(rt; status_of_run(&rt, alloc, file.as_slice(), &[])?, status);
    }
    for (count, status) in [(67_108_864, 0), (67_108_865, 7)] {
        let text = filled(alloc, b'x', count)?;
        let texts = [(b"t".as_slice(), text.as_slice())];
        assert_eq!(rt; status_of_run(&rt, alloc, SAME, &texts)?, status);
    }
    Ok(())
}

#[test]
fn the_limit_of_all_texts_is_kept(rt: HostRuntime) -> Result<(), Fail> {
    let alloc = rt.alloc();
    let text = filled(alloc, b'x', 67_108_864)?;
    let text = text.as_slice();
    for (last, status) in [(b"".as_slice(), 0), (b"y", 7)] {
        let texts = [
            (b"a".as_slice(), text),
            (b"b", text),
            (b"c", text),
            (b"d", text),
            (b"e", last),
        ];
        let file = b"job a\ninput files a b c d e\nmap length\n";
        assert_eq!(rt; status_of_run(&rt, alloc, file.as_slice(), &texts)?, status);
    }
    Ok(())
}

#[test]
fn a_text_of_two_jobs_counts_twice(rt: HostRuntime) -> Result<(), Fail> {
    let alloc = rt.alloc();
    let file =
        b"job a\ninput lines t\nfilter longer 0\nblocks 65536\njob b\ninput lines t\nfilter longer 0\nblocks 65536\n";
    for (count, status) in [(4_194_304, 0), (4_194_305, 7)] {
        let text = filled(alloc, b'\n', count)?;
        let texts = [(b"t".as_slice(), text.as_slice())];
        assert_eq!(rt; status_of_run(&rt, alloc, file.as_slice(), &texts)?, status);
    }
    Ok(())
}
