//! A call of the program enters the gate that it is given once for each index of each job.

use super::{RUN, texts_of, word_list};
use crate::run_words;
use qtc_base::{List, NoMemory};
use qtc_outside::{Gate, MemSink, MemTexts};
use std::alloc::Global;
use std::sync::Wait;
use std::sync::atomic::AtomicU32;
use std::sync::atomic::Ordering::SeqCst;
use std::test::Fail;
use std::thread::Threads;

// Counts how often each of four indexes of two jobs enters, and whatever else does.
#[derive(Drop)]
struct Counts {
    entered: Vec<AtomicU32>,
    strange: AtomicU32,
}

impl Counts {
    fn new(alloc: Global) -> Result<Counts, NoMemory> {
        let mut entered = Vec::new(alloc);
        for _ in 0..8 {
            entered.push(AtomicU32::new(0))?;
        }
        Ok(Counts {
            entered,
            strange: AtomicU32::new(0),
        })
    }

    // Whether these entered, and nothing else.
    fn are(&self, want: &[u32]) -> bool {
        self.strange.load(SeqCst) == 0
            && self.entered.len() == want.len()
            && self
                .entered
                .iter()
                .zip(want)
                .all(|(count, times)| count.load(SeqCst) == *times)
    }
}

impl Gate for Counts {
    fn enter(&self, job: u32, index: u32) {
        let place = if job < 2 && index < 4 {
            4 * job + index
        } else {
            8
        };
        match self.entered.get(place as usize) {
            Some(count) => {
                count.fetch_add(1, SeqCst);
            }
            None => {
                self.strange.fetch_add(1, SeqCst);
            }
        }
    }
}

// Whether a call with these words over a job of three items and one of four enters with each of them once.
fn enters_once<R: Threads + Wait + Sync>(
    rt: &R,
    alloc: Global,
    words: &[&str],
) -> Result<bool, Fail> {
    let file =
        b"job a\ninput lines t\nmap same\nblocks 1\njob b\ninput pieces 1 t\nfilter contains b\n";
    let words = word_list(alloc, words)?;
    let texts = texts_of(
        alloc,
        file.as_slice(),
        &[(b"t".as_slice(), b"a\n\nb".as_slice())],
    )?;
    let mut texts = MemTexts::new(texts, 7, List::new(alloc));
    let mut out = MemSink::new(alloc, 5, List::new(alloc));
    let mut err = MemSink::new(alloc, 5, List::new(alloc));
    let gate = Counts::new(alloc)?;
    let ended = run_words(rt, alloc, &words, &mut texts, &mut out, &mut err, &gate);
    Ok(ended.status == 0 && gate.are(&[1, 1, 1, 0, 1, 1, 1, 1]))
}

#[test]
fn each_index_of_each_job_enters_once(rt: HostRuntime) -> Result<(), Fail> {
    for words in [
        RUN,
        &["run", "--workers", "1", "j"],
        &["run", "--workers", "2", "j"],
        &["run", "--workers", "32", "j"],
    ] {
        assert!(rt; enters_once(&rt, rt.alloc(), words)?, "{words:?}");
    }
    Ok(())
}
