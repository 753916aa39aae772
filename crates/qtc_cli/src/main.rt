//! `qtc` runs the jobs of a job file over the texts that it names, and writes their reports.
#![tactic(auto)]

use endings::refuse;
use qtc_outside::{FileTexts, NoGate, StdSink};
use refusals::Refusal;
use run::run_words;
use std::alloc::Global;
use std::process::ExitCode;
use std::{env, io, mem};

mod check;
mod command_forms;
mod endings;
mod refusals;
mod run;

/// The words after the program's name.
fn words_of(rt: &HostRuntime, alloc: Global) -> io::Result<Vec<String>> {
    let mut words = Vec::new(alloc);
    for word in env::args(rt)?.skip(1) {
        words.push(word)?;
    }
    Ok(words)
}

/// Why there are no words: memory lacks, or one of them is no text.
fn refusal_of(fault: &io::Error) -> Refusal {
    match fault.kind() {
        io::ErrorKind::OutOfMemory => Refusal::Memory,
        _ => Refusal::ReadFault,
    }
}

fn main(rt: HostRuntime) -> ExitCode {
    let alloc = rt.alloc();
    let mut out = StdSink::new(&rt, false);
    let mut err = StdSink::new(&rt, true);
    let status = match words_of(&rt, alloc) {
        Ok(words) => {
            let mut texts = FileTexts::new(&rt);
            let ended = run_words(&rt, alloc, &words, &mut texts, &mut out, &mut err, &NoGate);
            let status = ended.status;
            // The system takes back all memory at once: to free the values one by one would only take time.
            mem::forget(ended);
            status
        }
        Err(fault) => refuse(alloc, refusal_of(&fault), &mut err),
    };
    ExitCode::from(status)
}
