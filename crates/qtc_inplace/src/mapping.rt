//! Runs of chunks that are mapped in place.
ghost use Rattle.std.specs.Prelude.{◌≡◌, ◌+◌, ◌<◌, ◌≤◌, ◌^◌, length};
ghost use Rattle.std.specs.Thread.{IsSend, IsSync};
ghost use Rattle.qtc_inplace.specs.Conditions.{NeverDrops, value_of};
ghost use Rattle.qtc_inplace.specs.Inside.{BothMapped, IsReady, JoinsBoth, MapsInTurn, MapsTogether};

use crate::InPlaceFault;
use crate::plan::{middle, run_end};
use crate::taking::take_in_turn;
use crate::takings::Texts;
use qtc_base::Bytes;
use qtc_ops::ItemFn;
use std::alloc::Global;
use std::thread::{Threads, join_mut};

/// What two runs come to, of which the second is right behind the first.
fn joined(
    front: Result<(), InPlaceFault>,
    back: Result<(), InPlaceFault>,
) -> Result<(), InPlaceFault>
    ensures { JoinsBoth front back result }
{
    match (front, back) {
        (Err(InPlaceFault::Memory), _) | (_, Err(InPlaceFault::Memory)) => {
            Err(InPlaceFault::Memory)
        }
        (Err(InPlaceFault::Bad(index)), _) => Err(InPlaceFault::Bad(index)),
        (Ok(()), back) => back,
    }
}

/// Maps one chunk, whose values are all made before its first member changes.
fn map_chunk<F: ItemFn>(
    alloc: Global,
    size: usize,
    first: u32,
    chunk: &mut [Bytes],
    function: &mut F,
) -> Result<(), InPlaceFault>
    requires room { first + length chunk.old < 2 ^ 32 }
    requires one { (0 < size) × (length chunk.old ≤ size) }
    requires never { NeverDrops (F.value function.old) }
    ensures maps { MapsInTurn (F.value function.old) size first chunk.old chunk.new
        (F.called function.old) (F.called function.new) result }
    ensures value_stays { F.value function.new ≡ F.value function.old }
{
    match take_in_turn::<F, Bytes, Texts>(alloc, first, chunk, function) {
        Ok(mut values) => {
            chunk.swap_with_slice(values.as_mut_slice());
            Ok(())
        }
        Err(fault) => Err(fault),
    }
}

/// Maps chunk after chunk, each whatever the others came to.
fn map_in_turn<F: ItemFn>(
    alloc: Global,
    size: usize,
    first: u32,
    list: &mut [Bytes],
    function: &mut F,
) -> Result<(), InPlaceFault>
    requires room { first + length list.old < 2 ^ 32 }
    requires size { 0 < size }
    requires never { NeverDrops (F.value function.old) }
    ensures maps { MapsInTurn (F.value function.old) size first list.old list.new
        (F.called function.old) (F.called function.new) result }
    ensures value_stays { F.value function.new ≡ F.value function.old }
{
    if list.len() <= size {
        return map_chunk(alloc, size, first, list, function);
    }
    let at = middle(list.len(), size);
    let (front, back) = list.split_at_mut(at);
    let low = map_in_turn(alloc, size, first, front, function);
    let high = map_in_turn(alloc, size, first + at as u32, back, function);
    joined(low, high)
}

/// Maps a list by as many functions as there are, each on a run of its chunks, all at once.
#[cycle(together)]
pub(crate) fn map_together<R: Threads + Sync, F: ItemFn>(
    alloc: Global,
    rt: &R,
    size: usize,
    first: u32,
    list: &mut [Bytes],
    functions: &mut [F],
) -> Result<(), InPlaceFault>
    requires ready { IsReady F.value size first list.old functions.old }
    requires never { NeverDrops (value_of F.value functions.old) }
    ensures { MapsTogether F.value F.called size first list.old list.new functions.old functions.new result }
{
    if functions.len() == 1 {
        return map_in_turn(alloc, size, first, list, &mut functions[0]);
    }
    let few = functions.len() / 2;
    let at = run_end(list.len(), size, few, functions.len());
    let (front, back) = list.split_at_mut(at);
    let (low, high) = functions.split_at_mut(few);
    map_both(
        alloc,
        rt,
        size,
        first,
        front,
        low,
        first + at as u32,
        back,
        high,
    )
}

/// Maps two runs, each by functions of its own, both at once.
#[cycle(together)]
fn map_both<R: Threads + Sync, F: ItemFn>(
    alloc: Global,
    rt: &R,
    size: usize,
    first: u32,
    front: &mut [Bytes],
    low: &mut [F],
    second: u32,
    back: &mut [Bytes],
    high: &mut [F],
) -> Result<(), InPlaceFault>
    requires front { IsReady F.value size first front.old low.old }
    requires back { IsReady F.value size second back.old high.old }
    requires low { NeverDrops (value_of F.value low.old) }
    requires high { NeverDrops (value_of F.value high.old) }
    ensures { BothMapped F.value F.called size first front.old front.new low.old low.new
        second back.old back.new high.old high.new result }
{
    let mut map_front = || -> Result<(), InPlaceFault>
        requires { IsSync R.row × IsSend F.row × IsReady F.value size first front.now low.now
            × NeverDrops (value_of F.value low.now) }
        ensures { MapsTogether F.value F.called size first front.entry.now front.exit.now
            low.entry.now low.exit.now result }
    { map_together(alloc, rt, size, first, front, low) };
    let mut map_back = || -> Result<(), InPlaceFault>
        requires { IsSync R.row × IsSend F.row × IsReady F.value size second back.now high.now
            × NeverDrops (value_of F.value high.now) }
        ensures { MapsTogether F.value F.called size second back.entry.now back.exit.now
            high.entry.now high.exit.now result }
    { map_together(alloc, rt, size, second, back, high) };
    let (a, b) = join_mut(rt, &mut map_front, &mut map_back);
    joined(a, b)
}
