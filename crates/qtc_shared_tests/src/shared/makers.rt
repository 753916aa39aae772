// A promise in plain mode, whose calls ask for nothing, and say no more than their types.
ghost use Rattle.std.specs.Prelude.{◌≡◌, ◌<◌, false};

use qtc_base::{Bytes, NoMemory};
use qtc_events::Flags;
use qtc_shared::{Pass, Promise, SharedFuture};
use std::sync::Wait;

#[derive(Drop)]
pub struct Maker<'a> {
    promise: Promise<'a, u32>,
    ghost plain: { promise.of.terms.filter ≡ false },
}

impl<'a> Maker<'a> {
    pub fn new(future: &'a SharedFuture<u32>, pass: Pass<u32>) -> Maker<'a>
        requires of { pass.of ≡ future.now }
        requires maker { pass.number < future.now.terms.makers }
        requires plain { future.now.terms.filter ≡ false }
    {
        Maker {
            promise: Promise::new(future, pass),
        }
    }

    pub fn state(&mut self) -> Flags {
        self.promise.state()
    }

    pub fn is_canceled(&mut self) -> bool {
        self.promise.is_canceled()
    }

    pub fn start<R: Wait>(&mut self, rt: &R) -> bool {
        self.promise.start(rt)
    }

    pub fn pause<R: Wait>(&mut self, rt: &R) -> Result<Flags, NoMemory> {
        self.promise.suspend_if_requested(rt)
    }

    pub fn add<R: Wait>(
        &mut self,
        rt: &R,
        index: Option<u32>,
        value: u32,
    ) -> Result<bool, NoMemory> {
        self.promise.add_result(rt, index, value)
    }

    pub fn set_failure<R: Wait>(&mut self, rt: &R, index: u32, item: Bytes) -> bool {
        self.promise.set_failure(rt, index, item)
    }

    pub fn finish<R: Wait>(&mut self, rt: &R) -> bool {
        self.promise.finish(rt)
    }

    // Ends the promise, and gives the number of its pass.
    pub fn end<R: Wait>(self, rt: &R) -> u32 {
        let Maker { promise } = self;
        promise.end(rt).number()
    }
}
