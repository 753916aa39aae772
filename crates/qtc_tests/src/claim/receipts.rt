//! Receipts and the token of a counter.
ghost use Rattle.std.specs.Prelude.{◌≡◌, ◌≤◌, IfSome};
ghost use Rattle.qtc_base.specs.Limits.{most_block};

use super::for_two;
use qtc_base::Range;
use qtc_claim::{Counter, Seat, Tally, Token};
use std::marker::Brand;
use std::test::Fail;

// Takes the token, lent for nothing.
fn lend(counter: &Counter, tally: &mut Tally) -> Option<Token>
    requires { tally.old.of ≡ counter.now }
    ensures of { tally.new.of ≡ counter.now }
    ensures token { IfSome result (λ token. token.of ≡ counter.now) }
{
    tally.take_token::<Brand>(counter)
}

// Claims a piece, gathers it, and settles it. It tells the piece's range.
fn claim_one(counter: &Counter, seat: &mut Seat, tally: &mut Tally, size: u32) -> Option<(u32, u32)>
    requires seat { seat.old.of ≡ counter.now }
    requires tally { tally.old.of ≡ counter.now }
    requires size { (1 ≤ size) × (size ≤ most_block) }
    ensures seat { seat.new.of ≡ counter.now }
    ensures tally { tally.new.of ≡ counter.now }
{
    let Some(piece) = counter.claim(seat, size) else {
        return None;
    };
    let Range { begin, end } = piece.range();
    let receipt = tally.gather(counter, piece);
    seat.settle(counter, receipt);
    Some((begin, end))
}

#[test]
fn the_token_is_out_with_one_at_a_time(rt: HostRuntime) -> Result<(), Fail> {
    let Ok((counter, _first, _second, mut tally)) = for_two(rt.alloc(), 5) else {
        panic!(rt; "memory")
    };
    let Some(token) = lend(&counter, &mut tally) else {
        panic!(rt; "token")
    };
    assert!(rt; lend(&counter, &mut tally).is_none());
    tally.put_token(&counter, token);
    assert!(rt; lend(&counter, &mut tally).is_some());
    Ok(())
}

#[test]
fn a_token_that_is_dropped_stays_out(rt: HostRuntime) -> Result<(), Fail> {
    let Ok((counter, _first, _second, mut tally)) = for_two(rt.alloc(), 5) else {
        panic!(rt; "memory")
    };
    assert!(rt; lend(&counter, &mut tally).is_some());
    assert!(rt; lend(&counter, &mut tally).is_none());
    Ok(())
}

#[test]
fn a_counter_ends_where_each_claim_is_settled(rt: HostRuntime) -> Result<(), Fail> {
    let Ok((counter, mut first, mut second, mut tally)) = for_two(rt.alloc(), 5) else {
        panic!(rt; "memory")
    };
    assert_eq!(rt;
        claim_one(&counter, &mut first, &mut tally, 3),
        Some((0, 3))
    );
    assert_eq!(rt;
        claim_one(&counter, &mut second, &mut tally, 3),
        Some((3, 5))
    );
    assert_eq!(rt; claim_one(&counter, &mut first, &mut tally, 3), None);
    tally.gather_seat(&counter, first);
    assert!(rt; !counter.end(&mut tally));
    tally.gather_seat(&counter, second);
    assert!(rt; counter.end(&mut tally));
    Ok(())
}

#[test]
fn a_kept_receipt_is_given_back_and_settled(rt: HostRuntime) -> Result<(), Fail> {
    let Ok((counter, mut first, _second, mut tally)) = for_two(rt.alloc(), 5) else {
        panic!(rt; "memory")
    };
    let Some(piece) = counter.claim(&mut first, 2) else {
        panic!(rt; "piece")
    };
    let receipt = tally.gather(&counter, piece);
    tally.keep(&counter, receipt);
    let receipt = tally.release(&counter);
    first.settle(&counter, receipt);
    assert_eq!(rt; first.claimed(), 2);
    Ok(())
}
