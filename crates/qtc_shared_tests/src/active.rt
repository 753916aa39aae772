ghost use Rattle.std.specs.Prelude.{◌≡◌, true, false, IfOk, All};
ghost use Rattle.qtc_active.specs.Count.{new_badge};

use qtc_active::{ActiveCount, Badge};
use qtc_base::NoMemory;
use std::alloc::Global;
use std::sync::atomic::AtomicU64;
use std::sync::atomic::Ordering::SeqCst;
use std::test::Fail;
use std::thread::{Threads, join, map_vec};

// Enters, looks and leaves so many times. `most` becomes the greatest number that a look gave.
fn come_and_go(count: &ActiveCount, mut badge: Badge, times: u32, most: &AtomicU64) -> Badge
    requires badge { (badge.of ≡ count.now) × (badge.is_in ≡ false) }
    ensures badge { (result.of ≡ count.now) × (result.is_in ≡ false) }
{
    for _ in 0..times {
        count.enter(&mut badge);
        most.fetch_max(count.count(&mut badge) as u64, SeqCst);
        count.leave(&mut badge);
    }
    badge
}

// As many threads as there are workers come and go so many times. It gives the greatest number that one of them saw, and
// how many are in at the end.
fn all_come_and_go<R: Threads + Sync>(
    rt: &R,
    alloc: Global,
    workers: u32,
    times: u32,
) -> Result<(u64, u32), NoMemory>
    ensures { IfOk result (λ told. told.1 ≡ 0) }
{
    let (count, badges) = ActiveCount::new(alloc, workers)?;
    let most = AtomicU64::new(0);
    let badges = map_vec(
        rt,
        badges,
        &|badge: Badge| -> Badge
            requires badge { badge ≡ new_badge count }
            ensures badge { (result.of ≡ count) × (result.is_in ≡ false) }
        { come_and_go(&count, badge, times, &most) },
    )?;
    Ok((most.load(SeqCst), count.count_all(badges)))
}

// How many are in at the end, as another thread finds it.
fn count_elsewhere<R: Threads + Sync>(rt: &R, count: ActiveCount, badges: Vec<Badge>) -> u32
    requires { All (λ badge. badge.of ≡ count) badges.items }
{
    let all = move || -> u32
        requires { All (λ badge. badge.of ≡ count) badges.items }
    { count.count_all(badges) };
    join(rt, all, || ()).0
}

// A count for three workers, the badges of two, and the others.
fn for_three(alloc: Global) -> Result<(ActiveCount, Badge, Badge, Vec<Badge>), NoMemory>
    ensures first { IfOk result (λ made. made.1 ≡ new_badge made.0) }
    ensures second { IfOk result (λ made. made.2 ≡ new_badge made.0) }
    ensures others { IfOk result (λ made. All (λ badge. badge.of ≡ made.0) made.3.items) }
{
    let (count, mut badges) = ActiveCount::new(alloc, 3)?;
    let second = badges.pop().unwrap();
    let first = badges.pop().unwrap();
    Ok((count, first, second, badges))
}

// Both enter, and one of them looks before, between and after.
fn rise(count: &ActiveCount, first: &mut Badge, second: &mut Badge) -> (u32, u32, u32)
    requires first { (first.old.of ≡ count.now) × (first.old.is_in ≡ false) }
    requires second { (second.old.of ≡ count.now) × (second.old.is_in ≡ false) }
    ensures first { (first.new.of ≡ count.now) × (first.new.is_in ≡ true) }
    ensures second { (second.new.of ≡ count.now) × (second.new.is_in ≡ true) }
{
    let before = count.count(second);
    count.enter(first);
    let between = count.count(second);
    count.enter(second);
    (before, between, count.count(first))
}

// Both leave, and one of them looks after each.
fn fall(count: &ActiveCount, first: &mut Badge, second: &mut Badge) -> (u32, u32)
    requires first { (first.old.of ≡ count.now) × (first.old.is_in ≡ true) }
    requires second { (second.old.of ≡ count.now) × (second.old.is_in ≡ true) }
    ensures first { (first.new.of ≡ count.now) × (first.new.is_in ≡ false) }
    ensures second { (second.new.of ≡ count.now) × (second.new.is_in ≡ false) }
{
    count.leave(first);
    let between = count.count(second);
    count.leave(second);
    (between, count.count(second))
}

#[test]
fn two_of_three_workers_enter_and_leave_and_enter(rt: HostRuntime) -> Result<(), Fail> {
    let Ok((count, mut first, mut second, others)) = for_three(rt.alloc()) else {
        panic!(rt; "memory")
    };
    assert_eq!(rt; rise(&count, &mut first, &mut second), (0, 1, 2));
    assert_eq!(rt; fall(&count, &mut first, &mut second), (1, 0));
    assert_eq!(rt; rise(&count, &mut second, &mut first), (0, 1, 2));
    assert_eq!(rt; count_elsewhere(&rt, count, others), 2);
    Ok(())
}

#[test]
fn two_and_eight_threads_come_and_go_1000_times_and_none_is_in_at_the_end(
    rt: HostRuntime,
) -> Result<(), Fail> {
    for workers in [2, 8] {
        let Ok((most, left)) = all_come_and_go(&rt, rt.alloc(), workers, 1000) else {
            panic!(rt; "memory")
        };
        assert!(rt; 1 <= most && most <= workers as u64);
        assert_eq!(rt; left, 0);
    }
    Ok(())
}
