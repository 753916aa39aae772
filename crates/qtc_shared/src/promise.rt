//! The side of a future that makes its results.
ghost use Rattle.std.specs.Prelude.{◌≡◌, ◌<◌, true, IsSome};
ghost use Rattle.qtc_events.specs.Flags.{flags_in};
ghost use Rattle.qtc_future.specs.Steps.{Effect};
ghost use Rattle.qtc_future.specs.declared.requests.Request.TheVariants as request;
ghost use Rattle.qtc_shared.specs.Passes.{Adds, IsEnding, IsHold, IsLook, IsPause, IsReport, Makes, Sees};

use crate::{Pass, SharedFuture};
use qtc_base::{Bytes, NoMemory, Value};
use qtc_events::Flags;
use std::marker::Model;
use std::sync::Wait;

/// A future with the pass of a maker, who reports its results. (After Qt's QPromise.)
///
/// Contracts see it as its pass. A promise that is dropped leaves its future as it is: who is done with it calls
/// `end`.
#[derive(Drop)]
pub struct Promise<'a, V: Value> {
    future: &'a SharedFuture<V>,
    pass: Pass<V>,
}

impl<'a, V: Value> Model for Promise<'a, V> {
    ghost use Rattle.std.specs.Prelude.{◌≡◌, ◌<◌};
    ghost use Rattle.qtc_shared.specs.Passes.{PassState};

    ghost Value = { PassState V };

    ghost view = { λ a. a.pass };

    ghost invariant = { λ a. (a.pass.of ≡ a.future.now) × (a.pass.number < a.pass.of.terms.makers) };
}

impl<'a, V: Value> Promise<'a, V> {
    /// A promise on the future. The pass is a maker's.
    pub fn new(future: &'a SharedFuture<V>, pass: Pass<V>) -> Promise<'a, V>
        requires of { pass.of ≡ future.now }
        requires maker { pass.number < future.now.terms.makers }
        ensures { result ≡ pass }
    {
        Promise { future, pass }
    }

    /// The flags, by one load, without the lock.
    pub fn state(&mut self) -> Flags
        ensures { IsLook self.old self.new (flags_in result.bits) }
    {
        self.future.state(&mut self.pass)
    }

    /// Whether Canceled stands, by one load, without the lock.
    pub fn is_canceled(&mut self) -> bool
        ensures { Sees self.old self.new (λ flags. result ≡ flags.canceled) }
    {
        self.future.is_canceled(&mut self.pass)
    }

    /// Starts the future: true exactly where it had an effect.
    pub fn start<R: Wait>(&mut self, rt: &R) -> bool
        ensures { IsHold self.old self.new (Makes self.old request.Start (Effect result)) }
    {
        self.future.start(rt, &mut self.pass)
    }

    /// Finishes the future: true exactly where it had an effect.
    pub fn finish<R: Wait>(&mut self, rt: &R) -> bool
        ensures { IsHold self.old self.new (Makes self.old request.Finish (Effect result)) }
    {
        self.future.finish(rt, &mut self.pass)
    }

    /// Cancels the future and keeps which item failed: true exactly where it had an effect.
    pub fn set_failure<R: Wait>(&mut self, rt: &R, index: u32, item: Bytes) -> bool
        ensures { IsHold self.old self.new (Makes self.old (request.Fail index item) (Effect result)) }
    {
        self.future.fail(rt, &mut self.pass, index, item)
    }

    /// Where a suspension is asked for, reports that the work stands still, and waits until it is resumed. Gives the
    /// flags that then stand. Err is want of memory.
    pub fn suspend_if_requested<R: Wait>(&mut self, rt: &R) -> Result<Flags, NoMemory>
        ensures { IsPause self.old self.new result }
    {
        match self.report_where_asked(rt) {
            Ok(_effect) => Ok(self.future.wait_resume(rt, &mut self.pass)),
            Err(NoMemory) => Err(NoMemory),
        }
    }

    // Reports that the work stands still where Suspending stands. Err is want of memory.
    fn report_where_asked<R: Wait>(&mut self, rt: &R) -> Result<bool, NoMemory>
        ensures { IsReport self.old self.new result }
    {
        if self.future.state(&mut self.pass).is_suspending() {
            return self.future.report_suspended(rt, &mut self.pass);
        }
        Ok(false)
    }

    /// Cancels and finishes a future that isn't finished, and gives the pass back.
    pub fn end<R: Wait>(self, rt: &R) -> Pass<V>
        ensures { IsEnding self.entry result }
    {
        let Promise { future, mut pass } = self;
        let _canceled = future.cancel(rt, &mut pass);
        let _finished = future.finish(rt, &mut pass);
        pass
    }
}

impl<'a, V: Value + Drop> Promise<'a, V> {
    /// Stores one result at `index`, or where the last batch ends: true exactly where it was accepted. Err is want of
    /// memory.
    pub fn add_result<R: Wait>(
        &mut self,
        rt: &R,
        index: Option<u32>,
        value: V,
    ) -> Result<bool, NoMemory>
        requires { self.old.of.terms.filter ≡ true → IsSome index }
        ensures { IsHold self.old self.new (Adds self.old (request.AddResult index value) result) }
    {
        self.future.add_result(rt, &mut self.pass, index, value)
    }
}
