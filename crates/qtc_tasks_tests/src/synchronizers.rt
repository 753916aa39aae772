// Synchronizers, and whom they cancel and wait for.
ghost use Rattle.std.specs.Prelude.{◌≡◌, ◌<◌};

use crate::made::{another, listed, plain};
use qtc_base::NoMemory;
use qtc_shared::{Pass, SharedFuture};
use qtc_tasks::{Synchronizer, ready};
use std::alloc::Global;
use std::sync::Wait;
use std::test::Fail;
use std::thread::{join, yield_now};

// How often a thread looks for a cancel at most.
const MOST_TURNS: u32 = 100_000_000;

// Finishes both futures once the second is canceled: whether the first was then canceled too.
fn finish_late<R: Wait>(rt: &R, mut first: Maker, mut second: Maker) -> bool {
    let mut seen = false;
    for _ in 0..MOST_TURNS {
        if second.is_canceled() {
            seen = first.is_canceled();
            break;
        }
        yield_now();
    }
    first.finish(rt);
    second.finish(rt);
    seen
}

// A future with its maker's pass.
#[derive(Drop)]
struct Maker<'a> {
    future: &'a SharedFuture<u32>,
    pass: Pass<u32>,
    ghost of: { pass.of ≡ future.now },
    ghost maker: { pass.number < pass.of.terms.makers },
}

impl<'a> Maker<'a> {
    fn is_canceled(&mut self) -> bool {
        self.future.is_canceled(&mut self.pass)
    }

    fn finish<R: Wait>(&mut self, rt: &R) {
        self.future.finish(rt, &mut self.pass);
    }
}

// A body that cancels and waits for one future after the other would wait for the first before it cancels the second.
#[test]
fn all_are_canceled_before_the_first_is_waited_for(rt: HostRuntime) -> Result<(), Fail> {
    let alloc = rt.alloc();
    let (first, mut pass) = plain(alloc)?;
    let (second, mut other) = plain(alloc)?;
    let mut both = Synchronizer::new(alloc, true);
    let watch_first = another(&rt, &first, &mut pass)?;
    let watch_second = another(&rt, &second, &mut other)?;
    assert!(rt; both.add(&first, watch_first).is_ok());
    assert!(rt; both.add(&second, watch_second).is_ok());
    let one = Maker {
        future: &first,
        pass,
    };
    let two = Maker {
        future: &second,
        pass: other,
    };
    let (passes, seen) = join(
        &rt,
        move || both.wait(&rt),
        move || finish_late(&rt, one, two),
    );
    assert_eq!(rt; (passes.len(), seen), (2, true));
    Ok(())
}

#[test]
fn none_is_canceled_where_that_is_not_asked(rt: HostRuntime) -> Result<(), Fail> {
    let alloc = rt.alloc();
    let (Ok((first, pass)), Ok((second, other))) = (
        ready(alloc, listed(alloc, &[7])?),
        ready(alloc, listed(alloc, &[8])?),
    ) else {
        panic!(rt; "two futures")
    };
    let mut both = Synchronizer::new(alloc, false);
    assert!(rt; both.add(&first, pass).is_ok());
    assert!(rt; both.add(&second, other).is_ok());
    let mut numbers = 0u32;
    for pass in both.wait(&rt).into_vec() {
        numbers = numbers.wrapping_add(1).wrapping_add(pass.number());
    }
    assert_eq!(rt; numbers, 2);
    Ok(())
}

#[test]
fn a_synchronizer_of_no_futures_waits_for_none(rt: HostRuntime) -> Result<(), Fail> {
    let none: Synchronizer<u32> = Synchronizer::new(rt.alloc(), true);
    assert_eq!(rt; none.wait(&rt).len(), 0);
    Ok(())
}
