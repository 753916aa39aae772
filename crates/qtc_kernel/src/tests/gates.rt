// When an engine enters the gate, and how it ends where a function wants memory.
ghost use Rattle.std.specs.Prelude.{◌≡◌, ◌≤◌, [], false, All, IfOk, length};
ghost use Rattle.qtc_kernel.specs.EngineParts.{AreDesks};
ghost use Rattle.qtc_kernel.specs.Driving.{AreSizes};
ghost use Rattle.qtc_ops.specs.ItemValue.{kept};

use crate::tests::engines::{ended, engine_of};
use crate::tests::{are_sizes, bytes_of, gives};
use crate::{Desk, Engine, Kind, Plan};
use qtc_base::{Bytes, Items, List, NoMemory};
use qtc_ops::{FoldOp, ItemFault, ItemFn};
use qtc_outside::{Gate, NoGate};
use qtc_shared::Pass;
use std::alloc::Global;
use std::sync::atomic::AtomicU32;
use std::sync::atomic::Ordering::SeqCst;
use std::test::Fail;

// Counts its entries, and what is wrong with one: another job's number, or an index that doesn't come next.
#[derive(Drop)]
struct Recorder {
    entries: AtomicU32,
    wrong: AtomicU32,
}

impl Gate for Recorder {
    fn enter(&self, job: u32, index: u32) {
        let before = self.entries.fetch_add(1, SeqCst);
        if job != 7 || index != before {
            self.wrong.fetch_add(1, SeqCst);
        }
    }
}

// Keeps each item, and tells the recorder of a call for which the gate wasn't entered just before.
#[derive(Drop)]
struct Watched<'a> {
    alloc: Global,
    gate: &'a Recorder,
    calls: List<u32>,
}

impl<'a> ItemFn for Watched<'a> {
    ghost value = { λ _ item. kept item };

    ghost called = { λ f. f.calls };

    fn apply(&mut self, index: u32, item: &[u8]) -> Result<Option<Bytes>, ItemFault> {
        let text = Bytes::from_slice(self.alloc, item)?;
        if self.calls.push(index).is_err() {
            return Err(ItemFault::Memory);
        }
        if self.gate.entries.load(SeqCst) as usize != self.calls.len() {
            self.gate.wrong.fetch_add(1, SeqCst);
        }
        Ok(Some(text))
    }

    fn calls(&self) -> &[u32] {
        self.calls.as_slice()
    }
}

// An engine of a filter with one worker, as job 7.
fn filter_engine<'a, F: ItemFn + Drop, G: Gate>(
    alloc: Global,
    items: &'a Items,
    sizes: &[u32],
    function: F,
    gate: &'a G,
) -> Result<(Engine<'a, F, FoldOp, G>, Vec<Desk<F>>, Pass<Bytes>), NoMemory>
    requires items { length items.now ≤ 8388608 }
    requires sizes { AreSizes sizes.now }
    requires fresh { F.called function ≡ [] }
    ensures desks { IfOk result (λ made. AreDesks F.value F.called made.0 made.1.items) }
    ensures out { IfOk result (λ made. All (λ desk. desk.badge.is_in ≡ false) made.1.items) }
    ensures pass { IfOk result (λ made. made.2.of ≡ made.0.future) }
{
    let mut functions = Vec::new(alloc);
    functions.push(function)?;
    let mut blocks = Vec::new(alloc);
    blocks.extend_from_slice(sizes)?;
    let plan = Plan {
        kind: Kind::Filtered,
        items,
        job: 7,
        workers: 1,
        blocks: List::from_vec(blocks),
        ordered: false,
        cancel_after: 0,
        suspend_after: 0,
        fold: None,
    };
    engine_of(alloc, plan, functions, gate)
}

#[test]
fn the_gate_is_entered_just_before_each_call(rt: HostRuntime) -> Result<(), Fail> {
    let alloc = rt.alloc();
    let gate = Recorder {
        entries: AtomicU32::new(0),
        wrong: AtomicU32::new(0),
    };
    let items = bytes_of(alloc, b"abc")?;
    assert!(rt; items.len() <= 8_388_608);
    let sizes = [2];
    assert!(rt; are_sizes(&sizes));
    let function = Watched {
        alloc,
        gate: &gate,
        calls: List::new(alloc),
    };
    let (engine, desks, _pass) = filter_engine(alloc, &items, &sizes, function, &gate)?;
    let (core, calls) = ended(&rt, alloc, engine, desks)?;
    assert!(rt; gives(core, b"abc")?);
    assert_eq!(rt; calls.as_slice(), [0, 1, 2].as_slice());
    assert_eq!(rt; gate.entries.load(SeqCst), 3);
    assert_eq!(rt; gate.wrong.load(SeqCst), 0);
    Ok(())
}

// Wants memory at each item.
#[derive(Drop)]
struct Hungry {
    calls: List<u32>,
}

impl ItemFn for Hungry {
    ghost value = { λ _ item. kept item };

    ghost called = { λ f. f.calls };

    fn apply(&mut self, _index: u32, _item: &[u8]) -> Result<Option<Bytes>, ItemFault> {
        Err(ItemFault::Memory)
    }

    fn calls(&self) -> &[u32] {
        self.calls.as_slice()
    }
}

// An engine whose functions want memory finishes its future all the same.
#[test]
fn an_engine_that_wants_memory_finishes_its_future(rt: HostRuntime) -> Result<(), Fail> {
    let alloc = rt.alloc();
    let items = bytes_of(alloc, b"ab")?;
    assert!(rt; items.len() <= 8_388_608);
    let sizes = [1];
    assert!(rt; are_sizes(&sizes));
    let function = Hungry {
        calls: List::new(alloc),
    };
    let (engine, desks, mut pass) = filter_engine(alloc, &items, &sizes, function, &NoGate)?;
    assert!(rt; engine.finish(&rt, alloc, desks).is_err());
    let flags = engine.future().state(&mut pass);
    assert!(rt; flags.is_canceled() && flags.is_finished());
    Ok(())
}
