//! Calls that steer a shared future: each is one hold of its lock.
ghost use Rattle.std.specs.Prelude.{◌≡◌, ◌<◌};
ghost use Rattle.qtc_future.specs.Steps.{Effect};
ghost use Rattle.qtc_future.specs.declared.requests.Request.TheVariants as request;
ghost use Rattle.qtc_shared.specs.Passes.{IsHold, Makes, Tries};

use crate::{Pass, SharedFuture};
use qtc_base::{Bytes, NoMemory, Value};
use std::sync::Wait;

impl<V: Value> SharedFuture<V> {
    /// Starts the future: true exactly where it had an effect.
    pub fn start<R: Wait>(&self, rt: &R, pass: &mut Pass<V>) -> bool
        requires { pass.old.of ≡ self.now }
        ensures { IsHold pass.old pass.new (Makes pass.old request.Start (Effect result)) }
    {
        let (mut lent, hold) = self.locked.lend(rt, &mut pass.seat);
        let effect = lent.core.start(pass.number);
        self.locked.enter(lent, hold, &mut pass.seat);
        effect
    }

    /// Cancels the future: true exactly where it had an effect.
    pub fn cancel<R: Wait>(&self, rt: &R, pass: &mut Pass<V>) -> bool
        requires { pass.old.of ≡ self.now }
        ensures { IsHold pass.old pass.new (Makes pass.old request.Cancel (Effect result)) }
    {
        let (mut lent, hold) = self.locked.lend(rt, &mut pass.seat);
        let effect = lent.core.cancel(pass.number);
        self.locked.enter(lent, hold, &mut pass.seat);
        effect
    }

    /// Finishes the future: true exactly where it had an effect.
    pub fn finish<R: Wait>(&self, rt: &R, pass: &mut Pass<V>) -> bool
        requires of { pass.old.of ≡ self.now }
        requires maker { pass.old.number < self.now.terms.makers }
        ensures { IsHold pass.old pass.new (Makes pass.old request.Finish (Effect result)) }
    {
        let (mut lent, hold) = self.locked.lend(rt, &mut pass.seat);
        let effect = lent.core.finish(pass.number);
        self.locked.enter(lent, hold, &mut pass.seat);
        effect
    }

    /// Cancels the future and keeps which item failed: true exactly where it had an effect.
    pub fn fail<R: Wait>(&self, rt: &R, pass: &mut Pass<V>, index: u32, item: Bytes) -> bool
        requires of { pass.old.of ≡ self.now }
        requires maker { pass.old.number < self.now.terms.makers }
        ensures { IsHold pass.old pass.new (Makes pass.old (request.Fail index item) (Effect result)) }
    {
        let (mut lent, hold) = self.locked.lend(rt, &mut pass.seat);
        let effect = lent.core.fail(pass.number, index, item);
        self.locked.enter(lent, hold, &mut pass.seat);
        effect
    }

    /// Asks to suspend the work, or to resume it: true exactly where it had an effect. Err is want of memory.
    pub fn set_suspended<R: Wait>(
        &self,
        rt: &R,
        pass: &mut Pass<V>,
        on: bool,
    ) -> Result<bool, NoMemory>
        requires { pass.old.of ≡ self.now }
        ensures { IsHold pass.old pass.new (Tries pass.old (request.SetSuspended on) Effect result) }
    {
        let (mut lent, hold) = self.locked.lend(rt, &mut pass.seat);
        let effect = lent.core.set_suspended(pass.number, on);
        self.locked.enter(lent, hold, &mut pass.seat);
        effect
    }

    /// Tells that the work stands still: true exactly where it had an effect. Err is want of memory.
    pub fn report_suspended<R: Wait>(&self, rt: &R, pass: &mut Pass<V>) -> Result<bool, NoMemory>
        requires { pass.old.of ≡ self.now }
        ensures { IsHold pass.old pass.new (Tries pass.old request.ReportSuspended Effect result) }
    {
        let (mut lent, hold) = self.locked.lend(rt, &mut pass.seat);
        let effect = lent.core.report_suspended(pass.number);
        self.locked.enter(lent, hold, &mut pass.seat);
        effect
    }
}
