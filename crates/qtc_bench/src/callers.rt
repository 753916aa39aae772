//! A shared future with a maker's pass, whose calls ask for nothing, and say no more than their types.
ghost use Rattle.std.specs.Prelude.{◌≡◌, ◌<◌, false, IfOk, length};

use qtc_base::{List, NoMemory};
use qtc_shared::{Pass, Promise, SharedFuture};
use std::alloc::Global;
use std::sync::Wait;

/// How many results a report has.
pub const BATCH: u32 = 16;

/// The values of a report.
pub fn batch(alloc: Global) -> Result<List<u64>, NoMemory>
    ensures { IfOk result (λ batch. length batch ≡ BATCH) }
{
    let values = [1, 2, 3, 4, 5, 6, 7, 8, 9, 10, 11, 12, 13, 14, 15, 16];
    Ok(List::from_vec(values.to_vec(alloc)?))
}

/// A future in plain mode, and its first pass.
pub fn new_future(alloc: Global, makers: u32) -> Result<(SharedFuture<u64>, Pass<u64>), NoMemory>
    requires { (0 < makers) × (makers < 100) }
    ensures of { IfOk result (λ made. made.1.of ≡ made.0) }
    ensures maker { IfOk result (λ made. made.1.number < made.0.terms.makers) }
    ensures plain { IfOk result (λ made. made.0.terms.filter ≡ false) }
{
    SharedFuture::new(alloc, false, 0, 0, makers)
}

#[derive(Drop)]
pub struct Caller<'a> {
    future: &'a SharedFuture<u64>,
    pass: Pass<u64>,
    ghost of: { pass.of ≡ future.now },
    ghost maker: { pass.number < pass.of.terms.makers },
    ghost plain: { pass.of.terms.filter ≡ false },
}

impl<'a> Caller<'a> {
    pub fn new(future: &'a SharedFuture<u64>, pass: Pass<u64>) -> Caller<'a>
        requires of { pass.of ≡ future.now }
        requires maker { pass.number < future.now.terms.makers }
        requires plain { future.now.terms.filter ≡ false }
    {
        Caller { future, pass }
    }

    /// A caller with a pass of its own, where a maker is left.
    pub fn another<R: Wait>(&mut self, rt: &R) -> Option<Caller<'a>> {
        let pass = self.future.new_pass(rt, &mut self.pass)?;
        if pass.number() < self.future.makers() {
            Some(Caller {
                future: self.future,
                pass,
            })
        } else {
            None
        }
    }

    /// Reports a batch.
    pub fn report<R: Wait>(&mut self, rt: &R, alloc: Global, begin: u32) -> Result<(), NoMemory> {
        let values = batch(alloc)?;
        match self.future.report(rt, &mut self.pass, begin, values, BATCH) {
            Ok(_reply) => Ok(()),
            Err(NoMemory) => Err(NoMemory),
        }
    }

    pub fn start<R: Wait>(&mut self, rt: &R) -> bool {
        self.future.start(rt, &mut self.pass)
    }

    /// Adds a value where the last batch ends: whether it was accepted.
    pub fn add<R: Wait>(&mut self, rt: &R, value: u64) -> Result<bool, NoMemory> {
        self.future.add_result(rt, &mut self.pass, None, value)
    }

    /// The word of flags, by one look.
    pub fn look(&mut self) -> u32 {
        self.future.state(&mut self.pass).bits
    }

    /// How many results there are from 0 on.
    pub fn count<R: Wait>(&mut self, rt: &R) -> u32 {
        self.future.count(rt, &mut self.pass)
    }

    /// Makes a pass, meets it, and gives it back: whether there was one left.
    pub fn meet_another<R: Wait>(&mut self, rt: &R) -> bool {
        let Some(mut other) = self.future.new_pass(rt, &mut self.pass) else {
            return false;
        };
        self.future.meet(rt, &mut self.pass, &mut other);
        self.future.give_back(rt, other);
        true
    }

    pub fn set_suspended<R: Wait>(&mut self, rt: &R, on: bool) -> Result<bool, NoMemory> {
        self.future.set_suspended(rt, &mut self.pass, on)
    }

    pub fn finish<R: Wait>(&mut self, rt: &R) -> bool {
        self.future.finish(rt, &mut self.pass)
    }

    pub fn wait_resume<R: Wait>(&mut self, rt: &R) -> u32 {
        self.future.wait_resume(rt, &mut self.pass).bits
    }

    pub fn wait_finished<R: Wait>(&mut self, rt: &R) -> u32 {
        self.future.wait_finished(rt, &mut self.pass).bits
    }

    /// Waits for the first result, or until there can be none.
    pub fn wait_first<R: Wait>(&mut self, rt: &R) -> Result<Option<u64>, NoMemory> {
        self.future.wait_result(rt, &mut self.pass, 0)
    }

    /// Tells that its work stands still, where that is asked for, and waits until it is resumed.
    pub fn pause<R: Wait>(self, rt: &R) -> Result<u32, NoMemory> {
        let Caller { future, pass } = self;
        let mut promise = Promise::new(future, pass);
        match promise.suspend_if_requested(rt) {
            Ok(flags) => Ok(flags.bits),
            Err(NoMemory) => Err(NoMemory),
        }
    }
}
