// A future in plain mode with a maker's pass, whose calls ask for nothing, and say no more than their types: what the pass
// knows is no matter of a test.
ghost use Rattle.std.specs.Prelude.{◌≡◌, ◌<◌, false, IfOk, length};

use crate::shared::makers::Maker;
use qtc_base::{Bytes, List, NoMemory};
use qtc_events::Flags;
use qtc_future::Reply;
use qtc_shared::{Pass, SharedFuture};
use std::alloc::Global;
use std::sync::Wait;

#[derive(Drop)]
pub struct Caller<'a> {
    future: &'a SharedFuture<u32>,
    pass: Pass<u32>,
    ghost of: { pass.of ≡ future.now },
    ghost maker: { pass.number < pass.of.terms.makers },
    ghost plain: { pass.of.terms.filter ≡ false },
}

// A list of one value.
fn single(alloc: Global, value: u32) -> Result<List<u32>, NoMemory>
    ensures { IfOk result (λ list. length list ≡ 1) }
{
    Ok(List::from_vec([value].to_vec(alloc)?))
}

impl<'a> Caller<'a> {
    pub fn new(future: &'a SharedFuture<u32>, pass: Pass<u32>) -> Caller<'a>
        requires of { pass.of ≡ future.now }
        requires maker { pass.number < future.now.terms.makers }
        requires plain { future.now.terms.filter ≡ false }
    {
        Caller { future, pass }
    }

    // A caller with a pass of its own, where a maker is left.
    pub fn another<R: Wait>(&mut self, rt: &R) -> Option<Caller<'a>> {
        let pass = self.future.new_pass(rt, &mut self.pass)?;
        if pass.number() < self.future.makers() {
            Some(Caller {
                future: self.future,
                pass,
            })
        } else {
            None
        }
    }

    pub fn flags(&mut self) -> Flags {
        self.future.state(&mut self.pass)
    }

    pub fn is_canceled(&mut self) -> bool {
        self.future.is_canceled(&mut self.pass)
    }

    pub fn is_finished(&mut self) -> bool {
        self.future.is_finished(&mut self.pass)
    }

    pub fn start<R: Wait>(&mut self, rt: &R) -> bool {
        self.future.start(rt, &mut self.pass)
    }

    pub fn cancel<R: Wait>(&mut self, rt: &R) -> bool {
        self.future.cancel(rt, &mut self.pass)
    }

    pub fn finish<R: Wait>(&mut self, rt: &R) -> bool {
        self.future.finish(rt, &mut self.pass)
    }

    pub fn fail<R: Wait>(&mut self, rt: &R, index: u32, item: Bytes) -> bool {
        self.future.fail(rt, &mut self.pass, index, item)
    }

    pub fn set_suspended<R: Wait>(&mut self, rt: &R, on: bool) -> Result<bool, NoMemory> {
        self.future.set_suspended(rt, &mut self.pass, on)
    }

    pub fn report_suspended<R: Wait>(&mut self, rt: &R) -> Result<bool, NoMemory> {
        self.future.report_suspended(rt, &mut self.pass)
    }

    // Reports one value.
    pub fn report<R: Wait>(
        &mut self,
        rt: &R,
        alloc: Global,
        index: u32,
        value: u32,
    ) -> Result<Reply, NoMemory> {
        let values = single(alloc, value)?;
        self.future.report(rt, &mut self.pass, index, values, 1)
    }

    pub fn account<R: Wait>(&mut self, rt: &R, total: u32) -> Result<Reply, NoMemory> {
        self.future.account(rt, &mut self.pass, total)
    }

    pub fn get<R: Wait>(&mut self, rt: &R, index: u32) -> Result<Option<u32>, NoMemory> {
        self.future.get(rt, &mut self.pass, index)
    }

    pub fn count<R: Wait>(&mut self, rt: &R) -> u32 {
        self.future.count(rt, &mut self.pass)
    }

    pub fn wait_result<R: Wait>(&mut self, rt: &R, index: u32) -> Result<Option<u32>, NoMemory> {
        self.future.wait_result(rt, &mut self.pass, index)
    }

    pub fn wait_resume<R: Wait>(&mut self, rt: &R) -> Flags {
        self.future.wait_resume(rt, &mut self.pass)
    }

    pub fn wait_finished<R: Wait>(&mut self, rt: &R) -> Flags {
        self.future.wait_finished(rt, &mut self.pass)
    }

    pub fn into_maker(self) -> Maker<'a> {
        let Caller { future, pass } = self;
        Maker::new(future, pass)
    }

    pub fn give_back<R: Wait>(self, rt: &R) {
        let Caller { future, pass } = self;
        let _ended = future.give_back(rt, pass);
    }
}
