// A producer and a consumer over one promise.
ghost use Rattle.std.specs.Prelude.{◌≡◌, ◌≤◌};

use crate::shared::plain;
use qtc_base::NoMemory;
use qtc_shared::{Pass, Promise, SharedFuture};
use std::sync::Wait;
use std::test::Fail;
use std::thread::join;

fn produced<R: Wait>(rt: &R, mut maker: Promise<'_, u32>, count: u32) -> Result<(), NoMemory>
    requires { count ≤ 1000 }
{
    maker.start(rt);
    for number in 0..count {
        maker.suspend_if_requested(rt)?;
        if maker.is_canceled() || !maker.add_result(rt, Some(number), number * number)? {
            break;
        }
    }
    maker.finish(rt);
    maker.end(rt);
    Ok(())
}

fn consumed<R: Wait>(
    rt: &R,
    future: &SharedFuture<u32>,
    mut pass: Pass<u32>,
    count: u32,
) -> Result<u32, NoMemory>
    requires { pass.of ≡ future.now }
{
    let mut sum = 0u32;
    for number in 0..count {
        match future.wait_result(rt, &mut pass, number)? {
            Some(square) => sum = sum.saturating_add(square),
            None => break,
        }
    }
    Ok(sum)
}

#[test]
fn a_consumer_waits_for_what_a_producer_reports(rt: HostRuntime) -> Result<(), Fail> {
    let (future, mut first) = plain(rt.alloc(), 1)?;
    let Some(pass) = future.new_pass(&rt, &mut first) else {
        panic!(rt; "a pass")
    };
    let maker = Promise::new(&future, first);
    let shared = &future;
    let (made, sum) = join(
        &rt,
        || produced(&rt, maker, 100),
        move ||
            requires { pass.of ≡ shared.now }
        { consumed(&rt, shared, pass, 100) },
    );
    made?;
    assert_eq!(rt; sum, Ok(328_350));
    Ok(())
}
