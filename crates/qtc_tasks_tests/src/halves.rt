// Two tasks that each wait for a result of the other's future, which a body on one thread never ends.
ghost use Rattle.std.specs.Prelude.{◌≡◌, ◌<◌, ◌∷◌, [], None, false, nat_eq, cond};

use crate::made::plain;
use qtc_shared::{Pass, SharedFuture};
use qtc_tasks::{Task, TaskFault, TaskJob, TaskStop, run_all};
use std::sync::Wait;
use std::test::Fail;
use std::thread::yield_now;

// How often a task looks for the other's result at most.
const MOST_TURNS: u32 = 100_000_000;

// A task of the values 1 and 2, which waits with the second until the other future has its first.
#[derive(Drop)]
struct Echo<'a, R: Wait> {
    rt: &'a R,
    other: &'a SharedFuture<u32>,
    pass: Pass<u32>,
    given: u32,
    ghost of: { pass.of ≡ other.now },
}

impl<'a, R: Wait + Sync> Task<u32> for Echo<'a, R> {
    ghost state = { λ task. record {
      left = cond (nat_eq task.given 0) (1 ∷ 2 ∷ []) (cond (nat_eq task.given 1) (2 ∷ []) []);
      bad = None;
    } };

    fn next(&mut self) -> Result<Option<u32>, TaskFault> {
        match self.given {
            0 => {
                self.given = 1;
                Ok(Some(1))
            }
            1 => {
                for _ in 0..MOST_TURNS {
                    if let Ok(Some(_first)) = self.other.get(self.rt, &mut self.pass, 0) {
                        self.given = 2;
                        return Ok(Some(2));
                    }
                    yield_now();
                }
                Err(TaskFault::Memory)
            }
            _ => Ok(None),
        }
    }
}

#[test]
fn two_tasks_wait_for_one_another(rt: HostRuntime) -> Result<(), Fail> {
    let alloc = rt.alloc();
    let (first, mut pass) = plain(alloc)?;
    let (second, mut other) = plain(alloc)?;
    let Some(watch_first) = first.new_pass(&rt, &mut pass) else {
        panic!(rt; "a pass")
    };
    let Some(watch_second) = second.new_pass(&rt, &mut other) else {
        panic!(rt; "a pass")
    };
    let futures = [first, second];
    let shared = futures.as_slice();
    let mut jobs = Vec::new(alloc);
    jobs.push(TaskJob {
        pass,
        task: Echo {
            rt: &rt,
            other: &shared[1],
            pass: watch_second,
            given: 0,
        },
    })?;
    jobs.push(TaskJob {
        pass: other,
        task: Echo {
            rt: &rt,
            other: &shared[0],
            pass: watch_first,
            given: 0,
        },
    })?;
    let ends = run_all(alloc, &rt, shared, jobs)?;
    for end in ends.as_slice() {
        assert!(rt; matches!(&end.stop, TaskStop::Whole));
    }
    Ok(())
}
