ghost use Rattle.std.specs.Prelude.{◌≡◌, [], IfOk};
ghost use Rattle.qtc_claim.specs.Claims.{IsWithinLimits, new_worker};
ghost use Rattle.qtc_claim.specs.Counter.{new_tally};

mod called;
mod receipts;

use qtc_base::{NoMemory, Range};
use qtc_claim::{Counter, Piece, Seat, Tally};
use std::alloc::Global;
use std::test::Fail;
use std::thread::{Threads, join};

// A counter for two workers.
fn for_two(alloc: Global, n: u32) -> Result<(Counter, Seat, Seat, Tally), NoMemory>
    requires { IsWithinLimits n 2 }
    ensures n { IfOk result (λ made. made.0.n ≡ n) }
    ensures first { IfOk result (λ made. made.1 ≡ record { of = made.0; worker = new_worker 0 }) }
    ensures second { IfOk result (λ made. made.2 ≡ record { of = made.0; worker = new_worker 1 }) }
    ensures tally { IfOk result (λ made. made.3 ≡ new_tally made.0) }
{
    let (counter, mut seats, tally) = Counter::new(alloc, n, 2)?;
    let second = seats.pop().unwrap();
    let first = seats.pop().unwrap();
    Ok((counter, first, second, tally))
}

fn range_of(piece: &Option<Piece>) -> Option<(u32, u32)> {
    match piece {
        Some(piece) => {
            let Range { begin, end } = piece.range();
            Some((begin, end))
        }
        None => None,
    }
}

// Whether all is gathered, as another thread finds it.
fn ends_elsewhere<R: Threads + Sync>(rt: &R, counter: &Counter, tally: Tally) -> bool
    requires { tally.of ≡ counter.now }
{
    let end = move || -> bool
        requires { tally.of ≡ counter.now }
    {
        let mut tally = tally;
        counter.end(&mut tally)
    };
    join(rt, end, || ()).0
}

#[test]
fn five_indexes_claimed_in_threes_end_once_all_is_gathered(rt: HostRuntime) -> Result<(), Fail> {
    let Ok((counter, mut first, mut second, mut tally)) = for_two(rt.alloc(), 5) else {
        panic!(rt; "memory")
    };
    assert!(rt; counter.is_open(&mut first));
    let one = counter.claim(&mut first, 3);
    let two = counter.claim(&mut second, 3);
    let three = counter.claim(&mut first, 3);
    assert_eq!(rt; range_of(&one), Some((0, 3)));
    assert_eq!(rt; range_of(&two), Some((3, 5)));
    assert_eq!(rt; range_of(&three), None);
    assert!(rt; !counter.is_open(&mut first) && !counter.is_open(&mut second));
    assert_eq!(rt; (first.claimed(), second.claimed()), (3, 3));
    let (Some(one), Some(two)) = (one, two) else {
        panic!(rt; "pieces")
    };
    tally.gather(&counter, one);
    tally.gather_seat(&counter, first);
    tally.gather_seat(&counter, second);
    assert!(rt; !counter.end(&mut tally));
    tally.gather(&counter, two);
    assert!(rt; counter.end(&mut tally) && ends_elsewhere(&rt, &counter, tally));
    Ok(())
}
