//! Calls that report results of a shared future: each is one hold of its lock.
ghost use Rattle.std.specs.Prelude.{◌≡◌, ◌<◌, ◌≤◌, true, false, IsSome, length};
ghost use Rattle.qtc_future.specs.Steps.{told_by};
ghost use Rattle.qtc_future.specs.declared.requests.Request.TheVariants as request;
ghost use Rattle.qtc_shared.specs.Passes.{IsHold, Adds, Tries};

use crate::{Pass, SharedFuture};
use qtc_base::{List, NoMemory, Value};
use qtc_future::Reply;
use std::sync::Wait;

impl<V: Value + Drop> SharedFuture<V> {
    /// Stores results for the indexes from `begin` to `begin + total`. Err is want of memory.
    pub fn report<R: Wait>(
        &self,
        rt: &R,
        pass: &mut Pass<V>,
        begin: u32,
        values: List<V>,
        total: u32,
    ) -> Result<Reply, NoMemory>
        requires of { pass.old.of ≡ self.now }
        requires maker { pass.old.number < self.now.terms.makers }
        requires few { length values ≤ total }
        requires whole { self.now.terms.filter ≡ false → length values ≡ total }
        ensures { IsHold pass.old pass.new
            (Tries pass.old (request.ReportBatch begin values total) told_by result) }
    {
        let (mut lent, hold) = self.locked.lend(rt, &mut pass.seat);
        let reply = lent.core.report_batch(pass.number, begin, values, total);
        self.locked.enter(lent, hold, &mut pass.seat);
        reply
    }

    /// Accounts for `total` indexes that have no result of their own. Err is want of memory.
    pub fn account<R: Wait>(
        &self,
        rt: &R,
        pass: &mut Pass<V>,
        total: u32,
    ) -> Result<Reply, NoMemory>
        requires of { pass.old.of ≡ self.now }
        requires maker { pass.old.number < self.now.terms.makers }
        ensures { IsHold pass.old pass.new (Tries pass.old (request.Account total) told_by result) }
    {
        let (mut lent, hold) = self.locked.lend(rt, &mut pass.seat);
        let reply = lent.core.account(pass.number, total);
        self.locked.enter(lent, hold, &mut pass.seat);
        reply
    }

    /// Stores one result at `index`, or where the last batch ends: true exactly where it was accepted. Err is want of
    /// memory.
    pub fn add_result<R: Wait>(
        &self,
        rt: &R,
        pass: &mut Pass<V>,
        index: Option<u32>,
        value: V,
    ) -> Result<bool, NoMemory>
        requires of { pass.old.of ≡ self.now }
        requires maker { pass.old.number < self.now.terms.makers }
        requires place { self.now.terms.filter ≡ true → IsSome index }
        ensures { IsHold pass.old pass.new (Adds pass.old (request.AddResult index value) result) }
    {
        let (mut lent, hold) = self.locked.lend(rt, &mut pass.seat);
        let reply = lent.core.add_result(pass.number, index, value);
        self.locked.enter(lent, hold, &mut pass.seat);
        match reply {
            Ok(reply) => Ok(matches!(&reply, Reply::Accepted { .. })),
            Err(NoMemory) => Err(NoMemory),
        }
    }
}
