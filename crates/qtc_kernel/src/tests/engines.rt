// Engines, with a thread for each worker or step by step on one.
ghost use Rattle.std.specs.Prelude.{◌≡◌, ◌<◌, ◌≤◌, [], false, All, IfOk, IfSome, length};
ghost use Rattle.qtc_kernel.specs.EngineParts.{AreDesks, IsDesk, IsPlanned};
ghost use Rattle.qtc_kernel.specs.Driving.{AreSizes};
ghost use Rattle.qtc_kernel.specs.OwnPasses.{drops_items, is_reduced};
ghost use Rattle.qtc_kernel.specs.Workload.{Suits, workload};
ghost use Rattle.qtc_ops.specs.Operations.{value_of};

use crate::tests::{are_sizes, bytes_of, gives};
use crate::{Desk, Engine, Kind, Plan, Turn};
use qtc_base::{Bytes, Items, List, NoMemory, Range, Value};
use qtc_future::{FutureCore, Outcome};
use qtc_ops::{FoldOp, ItemFn, ItemOp, MapOp, OpFn, Pred};
use qtc_outside::{Gate, NoGate};
use qtc_shared::Pass;
use std::alloc::Global;
use std::process::Abort;
use std::sync::Wait;
use std::test::Fail;
use std::thread::{Threads, for_each_mut};

// So many functions of an operation.
fn functions_of(alloc: Global, op: &ItemOp, count: u32) -> Result<Vec<OpFn>, NoMemory>
    ensures count { IfOk result (λ made. length made.items ≡ count) }
    ensures alike { IfOk result (λ made. All (λ f. ⟦<OpFn as ItemFn>⟧.value f ≡ value_of op.now) made.items) }
    ensures fresh { IfOk result (λ made. All (λ f. ⟦<OpFn as ItemFn>⟧.called f ≡ []) made.items) }
{
    let mut functions = Vec::new(alloc);
    for _made in 0..count {
        functions.push(OpFn::new(alloc, op.copy()?))?;
    }
    Ok(functions)
}

// An engine's plan without thresholds, with a function for each worker.
fn plan_over<'a>(
    alloc: Global,
    kind: Kind,
    op: &ItemOp,
    items: &'a Items,
    workers: u32,
    sizes: &[u32],
) -> Result<(Plan<'a, FoldOp>, Vec<OpFn>), NoMemory>
    requires workers { (1 ≤ workers) × (workers ≤ 32) }
    requires items { length items.now ≤ 8388608 }
    requires sizes { AreSizes sizes.now }
    requires plain { is_reduced kind ≡ false }
    requires suits { Suits (drops_items kind) (workload items.now (value_of op.now)) }
    ensures { IfOk result (λ made. IsPlanned ⟦<OpFn as ItemFn>⟧.value ⟦<OpFn as ItemFn>⟧.called
        made.0.kind made.0.fold made.0.items.now made.0.workers made.0.blocks made.1.items) }
{
    let functions = functions_of(alloc, op, workers)?;
    let mut blocks = Vec::new(alloc);
    blocks.extend_from_slice(sizes)?;
    let plan = Plan {
        kind,
        items,
        job: 0,
        workers,
        blocks: List::from_vec(blocks),
        ordered: false,
        cancel_after: 0,
        suspend_after: 0,
        fold: None,
    };
    Ok((plan, functions))
}

// A new engine of a plan, with its desks and the caller's pass.
pub(crate) fn engine_of<'a, F: ItemFn + Drop, G: Gate>(
    alloc: Global,
    plan: Plan<'a, FoldOp>,
    functions: Vec<F>,
    gate: &'a G,
) -> Result<(Engine<'a, F, FoldOp, G>, Vec<Desk<F>>, Pass<Bytes>), NoMemory>
    requires { IsPlanned F.value F.called plan.kind plan.fold plan.items.now plan.workers plan.blocks functions.items }
    ensures desks { IfOk result (λ made. AreDesks F.value F.called made.0 made.1.items) }
    ensures some { IfOk result (λ made. 0 < length made.1.items) }
    ensures out { IfOk result (λ made. All (λ desk. desk.badge.is_in ≡ false) made.1.items) }
    ensures pass { IfOk result (λ made. made.2.of ≡ made.0.future) }
{
    Engine::new(alloc, plan, functions, gate)
}

// Works with a desk until an answer other than Did.
pub(crate) fn drive<F: ItemFn, G: Gate, R: Wait>(
    rt: &R,
    engine: &Engine<'_, F, FoldOp, G>,
    desk: &mut Desk<F>,
)
    requires desk { IsDesk F.value F.called engine.now desk.old }
    requires out { desk.old.badge.is_in ≡ false }
    ensures desk { IsDesk F.value F.called engine.now desk.new }
    ensures out { desk.new.badge.is_in ≡ false }
{
    engine.enter(desk);
    engine.work(rt, desk);
}

// Works with each desk in a thread of its own.
fn drive_all<F: ItemFn, G: Gate, R: Threads + Wait + Sync>(
    rt: &R,
    engine: &Engine<'_, F, FoldOp, G>,
    desks: &mut Vec<Desk<F>>,
)
    requires desks { AreDesks F.value F.called engine.now desks.old.items }
    requires some { 0 < length desks.old.items }
    requires out { All (λ desk. desk.badge.is_in ≡ false) desks.old.items }
    ensures desks { AreDesks F.value F.called engine.now desks.new.items }
    ensures out { All (λ desk. desk.badge.is_in ≡ false) desks.new.items }
{
    let threads = desks.len();
    for_each_mut(
        rt,
        desks,
        threads,
        &|_, desk: &mut Desk<F>|
            requires desk { IsDesk F.value F.called engine.now desk.old }
            requires out { desk.old.badge.is_in ≡ false }
            ensures desk { IsDesk F.value F.called engine.entry.now desk.new }
            ensures out { desk.new.badge.is_in ≡ false }
        {
            drive(rt, engine, desk);
        },
    );
}

// Ends an engine whose desks are out: the core of its future, and the calls of its functions.
pub(crate) fn ended<F: ItemFn + Drop, G: Gate, R: Wait>(
    rt: &R,
    alloc: Global,
    engine: Engine<'_, F, FoldOp, G>,
    desks: Vec<Desk<F>>,
) -> Result<(FutureCore<Bytes>, List<u32>), NoMemory>
    requires desks { AreDesks F.value F.called engine desks.items }
    requires out { All (λ desk. desk.badge.is_in ≡ false) desks.items }
{
    let finished = engine.finish(rt, alloc, desks)?;
    let core = engine.close(rt, finished.pass);
    Ok((core, finished.calls))
}

// The sequential answer: one thread makes an engine and ends it, which works off all blocks.
#[test]
fn a_map_is_made_by_an_engine_alone(rt: HostRuntime) -> Result<(), Fail> {
    let alloc = rt.alloc();
    let items = bytes_of(alloc, b"abcde")?;
    let (plan, functions) = map_plan(&rt, alloc, MapOp::Same, &items, 4, &[2])?;
    let (engine, desks, _pass) = engine_of(alloc, plan, functions, &NoGate)?;
    let finished = engine.finish(&rt, alloc, desks)?;
    assert!(rt; finished.calls.as_slice() == [0, 1, 2, 3, 4].as_slice());
    assert_eq!(rt; finished.functions.len(), 4);
    let core = engine.close(&rt, finished.pass);
    assert!(rt; gives(core, b"abcde")?);
    Ok(())
}

// What a plan comes to with a thread for each worker.
fn run_engine<R: Threads + Wait + Sync>(
    rt: &R,
    alloc: Global,
    plan: Plan<'_, FoldOp>,
    functions: Vec<OpFn>,
) -> Result<(FutureCore<Bytes>, List<u32>), NoMemory>
    requires { IsPlanned ⟦<OpFn as ItemFn>⟧.value ⟦<OpFn as ItemFn>⟧.called
        plan.kind plan.fold plan.items.now plan.workers plan.blocks functions.items }
{
    let (engine, mut desks, _pass) = engine_of(alloc, plan, functions, &NoGate)?;
    drive_all(rt, &engine, &mut desks);
    ended(rt, alloc, engine, desks)
}

// A plan of a map.
pub(crate) fn map_plan<'a>(
    rt: &impl Abort,
    alloc: Global,
    op: MapOp,
    items: &'a Items,
    workers: u32,
    sizes: &[u32],
) -> Result<(Plan<'a, FoldOp>, Vec<OpFn>), NoMemory>
    requires { (1 ≤ workers) × (workers ≤ 32) }
    ensures { IfOk result (λ made. IsPlanned ⟦<OpFn as ItemFn>⟧.value ⟦<OpFn as ItemFn>⟧.called
        made.0.kind made.0.fold made.0.items.now made.0.workers made.0.blocks made.1.items) }
{
    assert!(rt; are_sizes(sizes));
    assert!(rt; items.len() <= 8_388_608);
    plan_over(alloc, Kind::Mapped, &ItemOp::Map(op), items, workers, sizes)
}

// What a map comes to, where each byte is an item.
pub(crate) fn map_all<R: Threads + Wait + Sync + Abort>(
    rt: &R,
    alloc: Global,
    op: MapOp,
    text: &[u8],
    workers: u32,
    sizes: &[u32],
) -> Result<(FutureCore<Bytes>, List<u32>), Fail>
    requires { (1 ≤ workers) × (workers ≤ 32) }
{
    let items = bytes_of(alloc, text)?;
    let (plan, functions) = map_plan(rt, alloc, op, &items, workers, sizes)?;
    Ok(run_engine(rt, alloc, plan, functions)?)
}

// The same of a filter for the bytes that are this one, or for the others.
pub(crate) fn filter_all<R: Threads + Wait + Sync + Abort>(
    rt: &R,
    alloc: Global,
    not: bool,
    byte: u8,
    text: &[u8],
    workers: u32,
    sizes: &[u32],
) -> Result<(FutureCore<Bytes>, List<u32>), Fail>
    requires { (1 ≤ workers) × (workers ≤ 32) }
{
    assert!(rt; are_sizes(sizes));
    let items = bytes_of(alloc, text)?;
    assert!(rt; items.len() <= 8_388_608);
    let pred = Pred::Contains(Bytes::from_slice(alloc, &[byte])?);
    let op = ItemOp::Keep { not, pred };
    let (plan, functions) = plan_over(alloc, Kind::Filtered, &op, &items, workers, sizes)?;
    Ok(run_engine(rt, alloc, plan, functions)?)
}

#[test]
fn two_workers_map_many_items(rt: HostRuntime) -> Result<(), Fail> {
    let text = b"abcdefghijklmnopqrstuvwxyz";
    for _round in 0..200u32 {
        let (core, calls) = map_all(&rt, rt.alloc(), MapOp::Same, text, 2, &[3, 1])?;
        assert_eq!(rt; calls.len(), 26);
        assert_eq!(rt; core.flags().bits, 6);
        assert!(rt; gives(core, text)?);
    }
    Ok(())
}

// Of six blocks three keep nothing, and are reported all the same: there are eight calls with the start and the finish.
#[test]
fn two_workers_report_what_keeps_nothing(rt: HostRuntime) -> Result<(), Fail> {
    for _round in 0..50u32 {
        let (core, calls) = filter_all(&rt, rt.alloc(), false, b'x', b"aaxaaaaxbbx", 2, &[2])?;
        assert_eq!(rt; calls.len(), 11);
        assert_eq!(rt; core.journal().len(), 8);
        assert!(rt; gives(core, b"xxx")?);
    }
    Ok(())
}

#[test]
fn three_workers_finish_without_items(rt: HostRuntime) -> Result<(), Fail> {
    let (core, calls) = map_all(&rt, rt.alloc(), MapOp::Same, b"", 3, &[1])?;
    assert_eq!(rt; calls.len(), 0);
    assert_eq!(rt; core.count(), 0);
    assert_eq!(rt; core.flags().bits, 6);
    assert_eq!(rt; core.journal().len(), 2);
    Ok(())
}

#[test]
fn more_workers_than_blocks_map_all(rt: HostRuntime) -> Result<(), Fail> {
    let (core, calls) = map_all(&rt, rt.alloc(), MapOp::Same, b"abc", 8, &[2])?;
    assert_eq!(rt; calls.len(), 3);
    assert_eq!(rt; core.journal().len(), 4);
    assert!(rt; gives(core, b"abc")?);
    Ok(())
}

// Whichever of the two bad items fails first, it is kept with its index, and no result of its block or past a gap.
#[test]
fn two_workers_fail_with_a_bad_item(rt: HostRuntime) -> Result<(), Fail> {
    for _round in 0..50u32 {
        let (core, _calls) = map_all(&rt, rt.alloc(), MapOp::Number, b"1234x678y", 2, &[2])?;
        assert_eq!(rt; core.flags().bits, 14);
        let Outcome::Failed(failure) = core.into_outcome()? else {
            panic!(rt; "not failed")
        };
        let item = failure.item.as_slice();
        assert!(rt;
            (failure.index == 4 && item == b"x".as_slice())
                || (failure.index == 8 && item == b"y".as_slice())
        );
    }
    Ok(())
}

// The last desk of an engine, and the others.
pub(crate) fn last_desk<F: ItemFn + Drop, G: Gate>(
    engine: &Engine<'_, F, FoldOp, G>,
    desks: &mut Vec<Desk<F>>,
) -> Option<Desk<F>>
    requires desks { All (IsDesk F.value F.called engine.now) desks.old.items }
    requires out { All (λ desk. desk.badge.is_in ≡ false) desks.old.items }
    ensures desk { IfSome result (IsDesk F.value F.called engine.now) }
    ensures is_out { IfSome result (λ desk. desk.badge.is_in ≡ false) }
    ensures desks { All (IsDesk F.value F.called engine.now) desks.new.items }
    ensures out { All (λ desk. desk.badge.is_in ≡ false) desks.new.items }
{
    desks.pop()
}

#[test]
fn a_worker_tells_each_turn(rt: HostRuntime) -> Result<(), Fail> {
    let alloc = rt.alloc();
    let items = bytes_of(alloc, b"12x4")?;
    let (plan, functions) = map_plan(&rt, alloc, MapOp::Number, &items, 1, &[2])?;
    let (engine, mut desks, pass) = engine_of(alloc, plan, functions, &NoGate)?;
    let Some(mut desk) = last_desk(&engine, &mut desks) else {
        panic!(rt; "no desk")
    };
    assert!(rt; engine.may_start(&mut desk));
    engine.enter(&mut desk);
    let Turn::Did(range) = engine.step(&rt, &mut desk) else {
        panic!(rt; "no block")
    };
    assert!(rt; range == Range { begin: 0, end: 2 });
    let Turn::Failed(index) = engine.step(&rt, &mut desk) else {
        panic!(rt; "no bad item")
    };
    assert_eq!(rt; index, 2);
    engine.enter(&mut desk);
    assert!(rt; matches!(engine.step(&rt, &mut desk), Turn::SawCanceled));
    assert!(rt; !engine.may_start(&mut desk));
    assert_eq!(rt; engine.close(&rt, pass).count(), 2);
    Ok(())
}

// A further worker is asked for while one of the two is out, and not once both are in.
#[test]
fn a_worker_is_asked_for_until_all_are_in(rt: HostRuntime) -> Result<(), Fail> {
    let alloc = rt.alloc();
    let items = bytes_of(alloc, b"abcdef")?;
    let (plan, functions) = map_plan(&rt, alloc, MapOp::Same, &items, 2, &[1])?;
    let (engine, mut desks, _pass) = engine_of(alloc, plan, functions, &NoGate)?;
    let Some(mut second) = last_desk(&engine, &mut desks) else {
        panic!(rt; "no desk")
    };
    let Some(mut first) = last_desk(&engine, &mut desks) else {
        panic!(rt; "no other desk")
    };
    engine.enter(&mut second);
    assert!(rt; engine.may_start(&mut first));
    engine.enter(&mut first);
    assert!(rt; !engine.may_start(&mut first));
    engine.work(&rt, &mut second);
    assert!(rt; !engine.may_start(&mut first));
    Ok(())
}

#[test]
fn a_caller_cancels_an_engine(rt: HostRuntime) -> Result<(), Fail> {
    let alloc = rt.alloc();
    let items = bytes_of(alloc, b"abc")?;
    let (plan, functions) = map_plan(&rt, alloc, MapOp::Same, &items, 2, &[1])?;
    let (engine, mut desks, mut pass) = engine_of(alloc, plan, functions, &NoGate)?;
    engine.future().cancel(&rt, &mut pass);
    drive_all(&rt, &engine, &mut desks);
    let (core, calls) = ended(&rt, alloc, engine, desks)?;
    assert_eq!(rt; calls.len(), 0);
    assert_eq!(rt; core.flags().bits, 14);
    Ok(())
}
