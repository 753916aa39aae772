//! The plain objects behind their locks. What is done to one is done here alone: one call a hold.
ghost use Rattle.std.specs.Prelude.{◌≡◌, ℕ, IfOk, length};
ghost use Rattle.qtc_chain.specs.Moments.{OnceDoes};

use crate::AllState;
use crate::calls::{Call, CountedCall};
use qtc_base::NoMemory;
use qtc_lock::{KeyLock, Keyed};
use std::alloc::Global;
use std::marker::Brand;
use std::sync::{Mutex, Wait};

/// Holds an object for one call of it, and answers what that answers.
pub(crate) fn locked<S: Send, C: Call<S>, R: Wait>(rt: &R, lock: &Mutex<S>, call: C) -> C::Answer
    ensures { OnceDoes (λ before after. C.does call before after result) }
{
    let mut held = lock.lock(rt);
    call.make(&mut held)
}

/// An object that waits for as many futures as its key says.
#[derive(Drop)]
pub(crate) struct Counted<T> {
    state: AllState<T>,
}

impl<T: Send> Keyed for Counted<T> {
    type Key = u64;

    ghost fits = { λ n counted. length counted.state ≡ n };
}

/// Holds an object that waits for so many futures, for one call of it, and answers what that answers.
pub(crate) fn locked_counted<T: Send, C: CountedCall<T>, R: Wait>(
    rt: &R,
    lock: &KeyLock<Counted<T>>,
    call: C,
) -> C::Answer
    requires { C.within call lock.now.key }
    ensures { OnceDoes (λ before after. C.does call before after result) }
{
    let (mut held, hold) = lock.take(rt);
    let answer = call.make(&mut held.state);
    lock.put(held, hold);
    answer
}

/// Ends the lock, and gives the object.
pub(crate) fn unlocked<T: Send, R: Wait>(rt: &R, lock: KeyLock<Counted<T>>) -> AllState<T>
    ensures { length result ≡ lock.key }
{
    lock.close(rt).state
}

/// A lock over an object. Err is want of memory.
pub(crate) fn guard<T: Send + Drop>(
    alloc: Global,
    state: AllState<T>,
) -> Result<KeyLock<Counted<T>>, NoMemory>
    ensures { IfOk result (λ lock. lock.key ≡ length state) }
{
    match KeyLock::new::<Brand>(alloc, Counted { state }) {
        Ok(lock) => Ok(lock),
        Err(_counted) => Err(NoMemory),
    }
}
