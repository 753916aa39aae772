//! Futures that are waited for together.
ghost use Rattle.std.specs.Prelude.{◌≡◌, ◌≤◌, ◌++◌, ◌∷◌, [], OnOk, OnErr, IfErr, false, vec_capacity, vec_len};
ghost use Rattle.qtc_tasks.specs.Waits.{CancelsWhere, EachOf, EachWaitedFor, IsWaitedFor};

use qtc_base::{List, Value};
use qtc_shared::{Pass, SharedFuture};
use std::alloc::Global;
use std::marker::Model;
use std::sync::Wait;

/// A future that is waited for, by a pass of it.
#[derive(Drop)]
struct Waited<'a, V: Value> {
    future: &'a SharedFuture<V>,
    pass: Pass<V>,
}

impl<'a, V: Value> Model for Waited<'a, V> {
    ghost use Rattle.std.specs.Prelude.{◌≡◌};
    ghost use Rattle.qtc_shared.specs.Passes.{PassState};

    ghost Value = { PassState V };

    ghost view = { λ a. a.pass };

    ghost invariant = { λ a. a.pass.of ≡ a.future.now };
}

impl<'a, V: Value> Waited<'a, V> {
    // Cancels the future, where that is asked for.
    fn cancel_where<R: Wait>(&mut self, rt: &R, cancel: bool)
        ensures { CancelsWhere cancel self.old self.new }
    {
        if cancel {
            self.future.cancel(rt, &mut self.pass);
        }
    }

    // Waits until the future is finished, and learns its journal.
    fn wait<R: Wait>(&mut self, rt: &R)
        ensures { IsWaitedFor false self.old self.new }
    {
        self.future.wait_finished(rt, &mut self.pass);
        self.future.event_at(rt, &mut self.pass, 0);
    }
}

/// Futures that are waited for together: `add` them, and then `wait` for all. A synchronizer that is dropped waits for
/// none. (After QFutureSynchronizer.)
#[derive(Drop)]
pub struct Synchronizer<'a, V: Value> {
    waited: Vec<Waited<'a, V>>,
    // Room for the passes that `wait` gives back.
    room: Vec<Pass<V>>,
    cancel_on_wait: bool,
}

impl<'a, V: Value> Model for Synchronizer<'a, V> {
    ghost use Rattle.std.specs.Prelude.{◌≡◌, ◌≤◌, [], vec_capacity, vec_len};
    ghost use Rattle.qtc_tasks.specs.Waits.{Awaited};

    ghost Value = { Awaited V };

    ghost view = { λ a. record { cancel_on_wait = a.cancel_on_wait; passes = a.waited.items } };

    ghost invariant = { λ a. (a.room.items ≡ []) × (vec_len a.waited ≤ vec_capacity a.room) };
}

impl<'a, V: Value> Synchronizer<'a, V> {
    /// A synchronizer of no futures, that cancels all before it waits where that is asked for. It takes no memory.
    pub fn new(alloc: Global, cancel_on_wait: bool) -> Synchronizer<'a, V>
        ensures { result ≡ record { cancel_on_wait = cancel_on_wait; passes = [] } }
    {
        Synchronizer {
            waited: Vec::new(alloc),
            room: Vec::new(alloc),
            cancel_on_wait,
        }
    }

    /// Adds a future, with a pass of it. Err is want of memory, and gives the pass back.
    pub fn add(&mut self, future: &'a SharedFuture<V>, pass: Pass<V>) -> Result<(), Pass<V>>
        requires { pass.of ≡ future.now }
        ensures ok { OnOk result (self.new ≡ record self.old { passes = self.old.passes ++ pass ∷ [] }) }
        ensures err { OnErr result (self.new ≡ self.old) }
        ensures back { IfErr result (λ back. back ≡ pass) }
    {
        if self.room.reserve(self.waited.len() + 1).is_err() {
            return Err(pass);
        }
        match self.waited.push(Waited { future, pass }) {
            Ok(()) => Ok(()),
            Err(refused) => {
                let Waited { future: _, pass } = refused.value;
                Err(pass)
            }
        }
    }

    /// Waits until each of the futures is finished, after it canceled all of them where that was asked for. Gives the
    /// passes back, in the order in which they were added; each knows the finish of its future.
    pub fn wait<R: Wait>(self, rt: &R) -> List<Pass<V>>
        ensures { EachWaitedFor self.entry.cancel_on_wait self.entry.passes result }
    {
        let Synchronizer {
            mut waited,
            room,
            cancel_on_wait,
        } = self;
        cancel_each(rt, waited.as_mut_slice(), cancel_on_wait);
        wait_each(rt, waited.as_mut_slice());
        List::from_vec(passes_of(waited, room))
    }
}

// Cancels each future, where that is asked for.
fn cancel_each<R: Wait, V: Value>(rt: &R, waited: &mut [Waited<'_, V>], cancel: bool)
    ensures { EachOf (CancelsWhere cancel) waited.old waited.new }
{
    for one in waited.iter_mut() {
        one.cancel_where(rt, cancel);
    }
}

// Waits for each future.
fn wait_each<R: Wait, V: Value>(rt: &R, waited: &mut [Waited<'_, V>])
    ensures { EachOf (IsWaitedFor false) waited.old waited.new }
{
    for one in waited.iter_mut() {
        one.wait(rt);
    }
}

// The passes of these, in the list that has room for them.
fn passes_of<V: Value>(waited: Vec<Waited<'_, V>>, mut room: Vec<Pass<V>>) -> Vec<Pass<V>>
    requires none { room.items ≡ [] }
    requires room { vec_len waited ≤ vec_capacity room }
    ensures { result.items ≡ waited.entry.items }
{
    for one in waited {
        let Waited { future: _, pass } = one;
        let Ok(()) = room.push(pass) else {
            unreachable!()
        };
    }
    room
}
