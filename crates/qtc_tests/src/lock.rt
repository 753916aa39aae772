ghost use Rattle.std.specs.Prelude.{◌≡◌, ◌+◌, ◌^◌, ◌<◌, IfOk};

mod seated;
mod waiting;

use qtc_lock::{Hold, KeyLock, Keyed};
use std::alloc::Global;
use std::marker::Brand;
use std::mem::size_of;
use std::sync::Wait;
use std::test::Fail;
use std::thread::{Threads, join};

/// A number, which fits the only key.
#[derive(Drop)]
struct Number(u64);

impl Keyed for Number {
    type Key = ();

    ghost fits = { λ _ _. Unit {0} };
}

/// Two amounts that add up to the key.
#[derive(Drop)]
struct Accounts {
    left: u64,
    right: u64,
}

impl Keyed for Accounts {
    type Key = u64;

    ghost fits = { λ total accounts. accounts.left + accounts.right ≡ total };
}

impl Accounts {
    // Moves one to the right or to the left, where there is one.
    fn shift(self, to_right: bool) -> Accounts
        requires { self.left + self.right < 2 ^ 64 }
        ensures { result.left + result.right ≡ self.left + self.right }
    {
        let Accounts { left, right } = self;
        if to_right && left > 0 {
            Accounts {
                left: left - 1,
                right: right + 1,
            }
        } else if !to_right && right > 0 {
            Accounts {
                left: left + 1,
                right: right - 1,
            }
        } else {
            Accounts { left, right }
        }
    }
}

fn opened(alloc: Global, left: u64, right: u64) -> Result<KeyLock<Accounts>, Accounts>
    ensures { IfOk result (λ lock. lock.key ≡ left + right) }
{
    KeyLock::new::<Brand>(alloc, Accounts { left, right })
}

fn shift_often<R: Wait>(rt: &R, lock: &KeyLock<Accounts>, to_right: bool)
    requires { lock.now.key < 2 ^ 64 }
{
    for _ in 0..5000 {
        let (accounts, hold) = lock.take(rt);
        lock.put(accounts.shift(to_right), hold);
    }
}

// Two threads shift five thousand times each.
fn shifted<R: Threads + Wait + Sync>(rt: &R, lock: KeyLock<Accounts>) -> Accounts
    requires { lock.key < 2 ^ 64 }
    ensures { result.left + result.right ≡ lock.key }
{
    let shared = &lock;
    join(
        rt,
        move ||
            requires { shared.now.key < 2 ^ 64 }
        { shift_often(rt, shared, true) },
        move ||
            requires { shared.now.key < 2 ^ 64 }
        { shift_often(rt, shared, false) },
    );
    lock.close(rt)
}

fn touch<S: Keyed, R: Wait>(rt: &R, lock: &KeyLock<S>) {
    let (value, hold) = lock.take(rt);
    lock.put(value, hold);
}

// Two threads share a lock over any type, and another ends it.
fn touched<S: Keyed + Drop, R: Threads + Wait + Sync>(rt: &R, lock: KeyLock<S>) -> S {
    join(rt, || touch(rt, &lock), || touch(rt, &lock));
    join(rt, move || lock.close(rt), || ()).0
}

#[test]
fn a_lock_over_seven_gives_seven_and_then_eight(rt: HostRuntime) -> Result<(), Fail> {
    let Ok(lock) = KeyLock::new::<Brand>(rt.alloc(), Number(7)) else {
        panic!(rt; "memory")
    };
    let (Number(first), hold) = lock.take(&rt);
    lock.put(Number(8), hold);
    let Number(last) = lock.close(&rt);
    assert_eq!(rt; (first, last), (7, 8));
    assert_eq!(rt; size_of::<Hold<Number>>(), 0);
    Ok(())
}

#[test]
fn two_threads_move_amounts_and_keep_the_total(rt: HostRuntime) -> Result<(), Fail> {
    let Ok(lock) = opened(rt.alloc(), 700, 300) else {
        panic!(rt; "memory")
    };
    let accounts = shifted(&rt, lock);
    assert_eq!(rt; accounts.left + accounts.right, 1000);
    Ok(())
}

#[test]
fn a_lock_serves_through_its_bound(rt: HostRuntime) -> Result<(), Fail> {
    let Ok(lock) = opened(rt.alloc(), 1, 2) else {
        panic!(rt; "memory")
    };
    let accounts = touched(&rt, lock);
    assert_eq!(rt; (accounts.left, accounts.right), (1, 2));
    Ok(())
}
