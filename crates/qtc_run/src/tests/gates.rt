//! The calls that a report tells are those that entered the gate.

use super::{MOST_TURNS, run};
use qtc_base::NoMemory;
use qtc_outside::Gate;
use std::alloc::Global;
use std::sync::atomic::AtomicU32;
use std::sync::atomic::Ordering::SeqCst;
use std::test::Fail;
use std::thread::yield_now;

// Counts how often each index enters, and holds index 0 until index 1 has entered, for at most `MOST_TURNS` turns.
#[derive(Drop)]
struct Counts {
    entered: Vec<AtomicU32>,
    strange: AtomicU32,
}

impl Counts {
    fn new(alloc: Global, items: u32) -> Result<Counts, NoMemory> {
        let mut entered = Vec::new(alloc);
        for _ in 0..items {
            entered.push(AtomicU32::new(0))?;
        }
        Ok(Counts {
            entered,
            strange: AtomicU32::new(0),
        })
    }

    fn of(&self, index: u32) -> u32 {
        match self.entered.get(index as usize) {
            Some(count) => count.load(SeqCst),
            None => 0,
        }
    }
}

impl Gate for Counts {
    fn enter(&self, job: u32, index: u32) {
        match self.entered.get(index as usize) {
            Some(count) if job == 0 => {
                count.fetch_add(1, SeqCst);
            }
            _ => {
                self.strange.fetch_add(1, SeqCst);
            }
        }
        if index != 0 {
            return;
        }
        for _ in 0..MOST_TURNS {
            if self.of(1) > 0 {
                return;
            }
            yield_now();
        }
    }
}

// How often the index stands among the calls.
fn told(calls: &[u32], index: u32) -> u32 {
    let mut count = 0u32;
    for call in calls {
        if *call == index {
            count = count.saturating_add(1);
        }
    }
    count
}

#[test]
fn the_calls_of_a_failed_run_are_those_that_entered(rt: HostRuntime) -> Result<(), Fail> {
    let alloc = rt.alloc();
    let file = b"job a\ninput lines t\nmap number\nblocks 1\n";
    let texts = [(
        b"t".as_slice(),
        b"0\nx\n2\n3\n4\n5\n6\n7\n8\n9\n10\n11\n12\n13\n14\n15\n".as_slice(),
    )];
    let gate = Counts::new(alloc, 16)?;
    let (report, _) = run(&rt, alloc, file.as_slice(), &texts, 2, &gate)?;
    assert!(rt; report.has_failed());
    assert!(rt; gate.of(0) == 1 && gate.of(1) == 1);
    assert_eq!(rt; gate.strange.load(SeqCst), 0);
    for job in report.jobs.as_slice() {
        for index in 0..16 {
            assert_eq!(rt;
                told(job.calls.as_slice(), index),
                gate.of(index),
                "index {index}"
            );
        }
    }
    Ok(())
}
