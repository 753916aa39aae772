ghost use Rattle.std.specs.Prelude.{◌≡◌, ◌<◌, false, IfOk};

mod callers;
mod ends;
mod makers;
mod promise_rows;
mod rows;
mod squares;
mod threads;
mod waits;

use qtc_base::NoMemory;
use qtc_shared::{Pass, SharedFuture};
use std::alloc::Global;
use std::sync::Wait;
use std::test::Fail;

// A new future in plain mode without thresholds, for so many makers, and its first pass.
fn plain(alloc: Global, makers: u32) -> Result<(SharedFuture<u32>, Pass<u32>), NoMemory>
    requires { (0 < makers) × (makers < 100) }
    ensures of { IfOk result (λ made. made.1.of ≡ made.0) }
    ensures maker { IfOk result (λ made. made.1.number < made.0.terms.makers) }
    ensures mode { IfOk result (λ made. made.0.terms.filter ≡ false) }
{
    SharedFuture::new(alloc, false, 0, 0, makers)
}

// Makes passes until there are no more, and gives how many were made.
fn used_up<R: Wait>(rt: &R, future: &SharedFuture<u32>, pass: &mut Pass<u32>) -> u32
    requires { pass.old.of ≡ future.now }
{
    let mut made = 0;
    for _ in 0..100_000u32 {
        match future.new_pass(rt, pass) {
            Some(_pass) => made += 1,
            None => return made,
        }
    }
    made
}

#[test]
fn so_many_passes_are_made(rt: HostRuntime) -> Result<(), Fail> {
    let (future, mut pass) = plain(rt.alloc(), 1)?;
    assert_eq!(rt; used_up(&rt, &future, &mut pass), 65_535);
    Ok(())
}
