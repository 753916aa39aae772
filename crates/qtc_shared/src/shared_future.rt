//! A future that threads share: how it is made, how its passes come and go, and how it ends.
ghost use Rattle.std.specs.Prelude.{◌≡◌, ◌≤◌, ◌<◌, [], All, IfOk, IfSome, IfNone};
ghost use Rattle.qtc_shared.specs.Journals.{IsOfFirst, calls_by};
ghost use Rattle.qtc_base.specs.Limits.{most_passes};
ghost use Rattle.qtc_shared.specs.Parts.{future_at};
ghost use Rattle.qtc_shared.specs.Passes.{IsHold, IsParent, IsShared, Meets, Stays, pass_at};

use crate::guarded::Guarded;
use crate::locked_core::LockedCore;
use crate::{EndedPass, Pass};
use qtc_base::{NoMemory, Value};
use qtc_future::FutureCore;
use std::alloc::Global;
use std::marker::Model;
use std::sync::Wait;

/// A future that threads share by reference. (After Qt's QFuture and QFutureInterface.)
#[derive(Drop)]
pub struct SharedFuture<V: Value> {
    pub(crate) locked: LockedCore<V>,
    makers: u32,
}

impl<V: Value> Model for SharedFuture<V> {
    ghost use Rattle.std.specs.Prelude.{◌≡◌};
    ghost use Rattle.qtc_shared.specs.Passes.{FutureId};

    ghost Value = { FutureId };

    ghost view = { λ a. a.locked.word };

    ghost invariant = { λ a. a.makers ≡ a.locked.word.terms.makers };
}

impl<V: Value + Drop> SharedFuture<V> {
    /// A future that nobody has called yet, and its first pass, whose number is 0. A threshold of 0 is none. Passes
    /// whose number is below `makers` may report. Err is want of memory.
    pub fn new(
        alloc: Global,
        filter: bool,
        cancel_after: u32,
        suspend_after: u32,
        makers: u32,
    ) -> Result<(SharedFuture<V>, Pass<V>), NoMemory>
        requires { (1 ≤ makers) × (makers ≤ most_passes) }
        ensures terms { IfOk result (λ made. made.0.terms ≡ record {
          filter = filter;
          thresholds = record { cancel_after = cancel_after; suspend_after = suspend_after };
          makers = makers;
        }) }
        ensures pass { IfOk result (λ made. made.1 ≡ pass_at made.0 0 []) }
    {
        let core = FutureCore::new(alloc, filter, cancel_after, suspend_after)?;
        let (future, mut passes) = SharedFuture::open(alloc, core, makers, 1)?;
        let first = passes.pop().unwrap();
        Ok((future, first))
    }

    /// Shares a core, and hands out the passes from 0 to `passes - 1`, all of which know its journal. Err is want of
    /// memory, and drops the core.
    pub fn from_core(
        alloc: Global,
        core: FutureCore<V>,
        makers: u32,
        passes: u32,
    ) -> Result<(SharedFuture<V>, Vec<Pass<V>>), NoMemory>
        requires makers { (1 ≤ makers) × (makers ≤ most_passes) }
        requires passes { (makers ≤ passes) × (passes ≤ most_passes) }
        requires callers { All IsOfFirst core.calls }
        ensures { IfOk result (λ made. IsShared core makers passes made.0 made.1.items) }
    {
        SharedFuture::open(alloc, core, makers, passes)
    }

    // Shares a core, and hands out that many passes.
    fn open(
        alloc: Global,
        core: FutureCore<V>,
        makers: u32,
        passes: u32,
    ) -> Result<(SharedFuture<V>, Vec<Pass<V>>), NoMemory>
        requires makers { (1 ≤ makers) × (makers ≤ most_passes) }
        requires passes { (1 ≤ passes) × (passes ≤ most_passes) }
        requires callers { All IsOfFirst core.calls }
        ensures { IfOk result (λ made. IsShared core makers passes made.0 made.1.items) }
    {
        let (locked, passes) = LockedCore::open(alloc, core, makers, passes)?;
        Ok((SharedFuture { locked, makers }, passes))
    }
}

impl<V: Value> SharedFuture<V> {
    /// How many passes may report: those whose number is below it.
    pub fn makers(&self) -> u32
        ensures { result ≡ self.now.terms.makers }
    {
        self.makers
    }

    /// A new pass, a child of `from`: it has a greater number, knows what `from` then knows, and has called nothing.
    /// None where 65,536 were made.
    pub fn new_pass<R: Wait>(&self, rt: &R, from: &mut Pass<V>) -> Option<Pass<V>>
        requires { from.old.of ≡ self.now }
        ensures from { IsParent from.old from.new result }
        ensures pass { IfSome result (λ pass. pass ≡ pass_at self.now pass.number from.new.known) }
        ensures number { IfSome result (λ pass. (from.old.number < pass.number) × (pass.number < most_passes)) }
        ensures fresh { IfSome result (λ pass. calls_by pass.number pass.known ≡ []) }
    {
        let (mut lent, hold) = self.locked.lend(rt, &mut from.seat);
        let pass = self.locked.word.make(&mut lent.made, &mut from.seat);
        let book = self.locked.word.hand_back(lent, &mut from.seat);
        self.locked.put(book, hold);
        pass
    }

    /// Lets two passes know the same: the journal at this step, which begins with all that either knew.
    pub fn meet<R: Wait>(&self, rt: &R, pass: &mut Pass<V>, other: &mut Pass<V>)
        requires pass { pass.old.of ≡ self.now }
        requires other { other.old.of ≡ self.now }
        ensures pass { IsHold pass.old pass.new Stays }
        ensures other { IsHold other.old other.new Stays }
        ensures one { pass.new.known ≡ other.new.known }
    {
        let (book, hold) = self.locked.show(rt, &mut pass.seat);
        let book = self.locked.word.show(book, &mut other.seat);
        self.locked.put(book, hold);
    }

    /// Ends a pass. What is left of it shows that it called nothing meanwhile; its number is never given again.
    pub fn give_back<R: Wait>(&self, rt: &R, pass: Pass<V>) -> EndedPass<V>
        requires { pass.of ≡ self.now }
        ensures { IsHold pass result Stays }
    {
        let Pass { mut seat, number } = pass;
        let (book, hold) = self.locked.show(rt, &mut seat);
        self.locked.put(book, hold);
        EndedPass::of(Pass { seat, number })
    }

    /// Ends the future, and gives its core.
    pub fn close<R: Wait>(self, rt: &R, pass: Pass<V>) -> FutureCore<V>
        requires { pass.of ≡ self }
        ensures core { result ≡ future_at self.terms result.calls }
        ensures met { Meets pass result.calls }
    {
        let SharedFuture { locked, makers: _ } = self;
        let Pass { seat, number: _ } = pass;
        locked.close(rt, seat)
    }
}
