//! A round of jobs: an engine for each, and one pool whose workers have a desk at each engine.
ghost use Rattle.std.specs.Prelude.{List as PlainList, ◌≡◌, ◌<◌, ◌≤◌, ◌++◌, [], All, IfOk, OnOk, drop, length, replicate, take};
ghost use Rattle.std.specs.Vec.Iter.{into_iter_items};
ghost use Rattle.qtc_base.specs.Limits.{most_workers};
ghost use Rattle.qtc_kernel.specs.EngineParts.{EngineParts};
ghost use Rattle.qtc_ops.specs.Operations.{value_of};
ghost use Rattle.qtc_run.specs.Pairing.{EachPair};
ghost use Rattle.qtc_run.specs.Outputs.{IsPoolRun};
ghost use Rattle.qtc_run.specs.Rounds.{AreFree, HasDone, IsEngineFor, IsFree, IsReady, IsReportFor, each_times};

use crate::engine_desks::EngineDesk;
use crate::job_runs::{kind_of, report_of};
use crate::slots::Slot;
use crate::workers::{Worker, run_workers};
use crate::{JobReport, Report};
use qtc_base::{Items, List, NoMemory, Value};
use qtc_job_file::Job;
use qtc_kernel::{Desk, Engine, Finished, Plan};
use qtc_ops::{FoldOp, ItemFn, ItemOp, OpFn};
use qtc_outside::Gate;
use qtc_pool::Pool;
use qtc_pool_core::PoolEntry;
use std::alloc::Global;
use std::sync::Wait;
use std::thread::Threads;
use std::vec::IntoIter;

/// A job of the round: its place in the file, and its items.
#[derive(Drop)]
pub(crate) struct RoundJob<'j> {
    pub place: u32,
    pub job: &'j Job,
    pub items: Items,
}

/// The engines of the jobs, and their desks, job by job.
#[derive(Drop)]
struct Opened<'a, G: Gate> {
    engines: Vec<Engine<'a, OpFn, FoldOp, G>>,
    desks: Vec<Desk<OpFn>>,
}

/// A function of the operation for each worker, none of which was called yet.
fn functions_of(alloc: Global, op: &ItemOp, workers: u32) -> Result<Vec<OpFn>, NoMemory>
    ensures count { IfOk result (λ functions. length functions.items ≡ workers) }
    ensures value { IfOk result (λ functions.
        All (λ function. ⟦<OpFn as ItemFn>⟧.value function ≡ value_of op.now) functions.items) }
    ensures fresh { IfOk result (λ functions.
        All (λ function. ⟦<OpFn as ItemFn>⟧.called function ≡ []) functions.items) }
{
    let mut functions = Vec::new(alloc);
    for _ in 0..workers {
        functions.push(OpFn::new(alloc, op.copy()?))?;
    }
    Ok(functions)
}

/// An engine for the job, and its desks.
fn open_job<'a, G: Gate>(
    alloc: Global,
    source: &'a RoundJob<'a>,
    workers: u32,
    gate: &'a G,
) -> Result<(Engine<'a, OpFn, FoldOp, G>, Vec<Desk<OpFn>>), NoMemory>
    requires ready { IsReady source.now }
    requires workers { (1 ≤ workers) × (workers ≤ most_workers) }
    ensures engine { IfOk result (λ made. IsEngineFor ⟦<OpFn as ItemFn>⟧.value workers source.now made.0) }
    ensures desks { IfOk result (λ made.
        AreFree ⟦<OpFn as ItemFn>⟧.value ⟦<OpFn as ItemFn>⟧.called made.0 made.1.items) }
{
    let functions = functions_of(alloc, &source.job.op, workers)?;
    let blocks = Vec::from_slice(alloc, source.job.blocks.as_slice())?;
    let plan = Plan {
        kind: kind_of(&source.job.op),
        items: &source.items,
        job: source.place,
        workers,
        blocks: List::from_vec(blocks),
        ordered: source.job.ordered,
        cancel_after: source.job.cancel_after,
        suspend_after: source.job.suspend_after,
        fold: None,
    };
    let (engine, desks, _pass) = Engine::new(alloc, plan, functions, gate)?;
    Ok((engine, desks))
}

/// An engine for each job.
fn open_all<'a, G: Gate>(
    alloc: Global,
    sources: &'a [RoundJob<'a>],
    workers: u32,
    gate: &'a G,
) -> Result<Opened<'a, G>, NoMemory>
    requires ready { All IsReady sources.now }
    requires workers { (1 ≤ workers) × (workers ≤ most_workers) }
    ensures engines { IfOk result (λ opened.
        EachPair (IsEngineFor ⟦<OpFn as ItemFn>⟧.value workers) sources.now opened.engines.items) }
    ensures desks { IfOk result (λ opened.
        EachPair (IsFree ⟦<OpFn as ItemFn>⟧.value ⟦<OpFn as ItemFn>⟧.called)
        (each_times workers opened.engines.items) opened.desks.items) }
{
    let mut engines = Vec::new(alloc);
    let mut desks = Vec::new(alloc);
    for source in sources {
        let (engine, mut theirs) = open_job(alloc, source, workers, gate)?;
        engines.push(engine)?;
        desks.append(&mut theirs)?;
    }
    Ok(Opened { engines, desks })
}

/// A pool of so many workers, in which the first slot of each job is queued.
fn queue_all<R: Wait>(
    alloc: Global,
    rt: &R,
    sources: &[RoundJob<'_>],
    workers: u32,
) -> Result<Pool<Slot>, NoMemory>
    requires ready { All IsReady sources.now }
    requires workers { (1 ≤ workers) × (workers ≤ most_workers) }
    ensures { IfOk result (λ pool. pool.first ≡ workers) }
{
    let pool = Pool::new(alloc, workers)?;
    for source in sources {
        Slot::first(source.place, source.job.priority, workers).start(rt, &pool)?;
    }
    Ok(pool)
}

/// Binds each of the next so many desks to its engine.
fn bind_row<'e, 'a, F: ItemFn + Drop, G: Gate>(
    engine: &'e Engine<'a, F, FoldOp, G>,
    count: u32,
    desks: &mut IntoIter<Desk<F>>,
    bound: &mut Vec<EngineDesk<'e, 'a, F, G>>,
) -> Result<(), NoMemory>
    requires count { count ≤ length (into_iter_items desks.old) }
    requires free { All (IsFree F.value F.called engine.now) (take count (into_iter_items desks.old)) }
    ensures desks { OnOk result (into_iter_items desks.new ≡ drop count (into_iter_items desks.old)) }
    ensures bound { OnOk result (bound.new.items ≡ bound.old.items ++ replicate count engine.now) }
{
    for _ in 0..count {
        if let Some(desk) = desks.next() {
            bound.push(EngineDesk::new(engine, desk))?;
        }
    }
    Ok(())
}

/// Binds each desk to its engine.
fn bind_all<'e, 'a, F: ItemFn + Drop, G: Gate>(
    alloc: Global,
    engines: &'e [Engine<'a, F, FoldOp, G>],
    desks: Vec<Desk<F>>,
    workers: u32,
) -> Result<Vec<EngineDesk<'e, 'a, F, G>>, NoMemory>
    requires { EachPair (IsFree F.value F.called) (each_times workers engines.now) desks.items }
    ensures { IfOk result (λ bound. bound.items ≡ each_times workers engines.now) }
{
    let mut bound = Vec::new(alloc);
    let mut desks = desks.into_iter();
    for engine in engines {
        bind_row(engine, workers, &mut desks, &mut bound)?;
    }
    Ok(bound)
}

/// Lets so many workers do the tasks of the pool at the desks, and gives them back bound to their engines.
fn work_on<'e, 'a, F: ItemFn + Drop, G: Gate, R: Threads + Wait + Sync>(
    alloc: Global,
    rt: &R,
    pool: &Pool<Slot>,
    engines: &'e [Engine<'a, F, FoldOp, G>],
    desks: Vec<Desk<F>>,
    workers: u32,
) -> Result<Vec<EngineDesk<'e, 'a, F, G>>, NoMemory>
    requires desks { EachPair (IsFree F.value F.called) (each_times workers engines.now) desks.items }
    requires workers { 1 ≤ workers }
    ensures { IfOk result (λ bound. bound.items ≡ each_times workers engines.now) }
{
    let bound = bind_all(alloc, engines, desks, workers)?;
    let left = run_workers(
        alloc,
        rt,
        pool,
        bound,
        engines.len(),
        workers,
        &|pool: &Pool<Slot>, slot: &Slot, worker: &mut Worker<EngineDesk<'_, '_, F, G>>|
            ensures { worker.new ≡ worker.old }
        {
            worker.work(rt, pool, slot);
        },
    )?;
    Ok(left)
}

/// Lets a pool of so many workers do the jobs of the round at the desks, and gives them back bound to their engines, and
/// what the pool did.
fn work_round<'e, 'a, G: Gate, R: Threads + Wait + Sync>(
    alloc: Global,
    rt: &R,
    sources: &[RoundJob<'_>],
    engines: &'e [Engine<'a, OpFn, FoldOp, G>],
    desks: Vec<Desk<OpFn>>,
    workers: u32,
) -> Result<(Vec<EngineDesk<'e, 'a, OpFn, G>>, List<PoolEntry>), NoMemory>
    requires ready { All IsReady sources.now }
    requires desks { EachPair (IsFree ⟦<OpFn as ItemFn>⟧.value ⟦<OpFn as ItemFn>⟧.called)
        (each_times workers engines.now) desks.items }
    requires workers { (1 ≤ workers) × (workers ≤ most_workers) }
    ensures bound { IfOk result (λ worked. worked.0.items ≡ each_times workers engines.now) }
    ensures pool { IfOk result (λ worked. IsPoolRun workers worked.1) }
{
    let pool = queue_all(alloc, rt, sources, workers)?;
    let bound = work_on(alloc, rt, &pool, engines, desks, workers)?;
    let core = pool.close(rt);
    let journal = Vec::from_slice(alloc, core.journal())?;
    Ok((bound, List::from_vec(journal)))
}

/// The next so many of these desks, without their engines.
fn desks_at<'e, 'a, F: ItemFn + Drop, G: Gate>(
    alloc: Global,
    bound: &mut IntoIter<EngineDesk<'e, 'a, F, G>>,
    count: u32,
) -> Result<Vec<Desk<F>>, NoMemory>
    ensures { IfOk result (λ desks. (parts : EngineParts F) (rest : PlainList (EngineParts F)) →
        into_iter_items bound.old ≡ replicate count parts ++ rest →
        (length desks.items ≡ count) × All (IsFree F.value F.called parts) desks.items
        × (into_iter_items bound.new ≡ rest)) }
{
    let mut desks = Vec::new(alloc);
    for _ in 0..count {
        if let Some(desk) = bound.next() {
            desks.push(desk.into_desk())?;
        }
    }
    Ok(desks)
}

/// Finishes the engines in their order, each with its own desks.
fn finish_all<'e, 'a, F: ItemFn + Drop, G: Gate, R: Wait>(
    alloc: Global,
    rt: &R,
    engines: &[Engine<'a, F, FoldOp, G>],
    bound: Vec<EngineDesk<'e, 'a, F, G>>,
    workers: u32,
) -> Result<Vec<Finished<F>>, NoMemory>
    requires bound { bound.items ≡ each_times workers engines.now }
    requires workers { All (λ parts. parts.counter.workers ≡ workers) engines.now }
    ensures { IfOk result (λ finished. EachPair (HasDone F.value) engines.now finished.items) }
{
    let mut finished = Vec::new(alloc);
    let mut bound = bound.into_iter();
    for engine in engines {
        let desks = desks_at(alloc, &mut bound, workers)?;
        let done = engine.finish(rt, alloc, desks)?;
        finished.push(done)?;
    }
    Ok(finished)
}

/// Closes the engines in their order, and reports each job.
fn report_all<'a, F: ItemFn + Drop, G: Gate, R: Wait>(
    alloc: Global,
    rt: &R,
    sources: &[RoundJob<'_>],
    engines: Vec<Engine<'a, F, FoldOp, G>>,
    finished: Vec<Finished<F>>,
    workers: u32,
) -> Result<List<JobReport>, NoMemory>
    requires ready { All IsReady sources.now }
    requires engines { EachPair (IsEngineFor F.value workers) sources.now engines.items }
    requires finished { EachPair (HasDone F.value) engines.items finished.items }
    ensures { IfOk result (λ reports. EachPair IsReportFor sources.now reports) }
{
    let mut reports = List::new(alloc);
    let mut finished = finished.into_iter();
    let mut engines = engines.into_iter();
    for source in sources {
        let Some(engine) = engines.next() else {
            unreachable!("each job has an engine");
        };
        let Some(done) = finished.next() else {
            unreachable!("each engine was finished");
        };
        let report = report_of(alloc, rt, source, engine, done, workers)?;
        match reports.push(report) {
            Ok(()) => {}
            Err(_report) => return Err(NoMemory),
        }
    }
    Ok(reports)
}

/// Runs the jobs of a round on a pool of so many workers. Err is want of memory.
pub fn run_round<G: Gate, R: Threads + Wait + Sync>(
    alloc: Global,
    rt: &R,
    sources: &[RoundJob<'_>],
    workers: u32,
    gate: &G,
) -> Result<Report, NoMemory>
    requires ready { All IsReady sources.now }
    requires workers { (1 ≤ workers) × (workers ≤ most_workers) }
    ensures reports { IfOk result (λ report. EachPair IsReportFor sources.now report.jobs) }
    ensures pool { IfOk result (λ report. IsPoolRun workers report.pool) }
{
    let Opened { engines, desks } = open_all(alloc, sources, workers, gate)?;
    let (bound, pool) = work_round(alloc, rt, sources, &engines, desks, workers)?;
    let finished = finish_all(alloc, rt, &engines, bound, workers)?;
    let jobs = report_all(alloc, rt, sources, engines, finished, workers)?;
    Ok(Report { jobs, pool })
}
