ghost use Rattle.std.specs.Prelude.{◌≡◌, ◌+◌, ◌<◌, ◌≤◌, ◌++◌, IfOk, OnErr, length};
ghost use Rattle.qtc_kernel.specs.Inside.{called_in, Calls, CallsUpTo, IsBlockOf, Takes};
ghost use Rattle.qtc_kernel.specs.Workload.{workload};

use crate::Kind;
use qtc_base::{Bytes, Items, List, NoMemory, Range};
use qtc_ops::{ItemFault, ItemFn};
use qtc_outside::Gate;
use std::alloc::Global;

/// What became of the items of a block.
#[derive(Drop)]
pub(crate) enum Block {
    /// What was kept of them.
    Kept(List<Bytes>),
    /// The least index whose item is bad.
    Bad(u32),
}

/// How many values a block has room for from the beginning: all in a map; a filter's grow as they are kept.
fn first_room(kind: Kind, block: Range) -> usize {
    if kind.drops_items() {
        0
    } else {
        (block.end - block.begin) as usize
    }
}

/// Calls the function on an item, and appends what it keeps.
fn take_value<F: ItemFn>(
    function: &mut F,
    index: u32,
    item: &[u8],
    values: &mut Vec<Bytes>,
) -> Result<(), ItemFault>
    ensures takes { Takes (F.value function.old item.now) values.old.items values.new.items result }
    ensures calls { Calls (F.called function.old) index (F.called function.new) result }
    ensures value_stays { F.value function.new ≡ F.value function.old }
{
    match function.apply(index, item) {
        Ok(Some(text)) => match values.push(text) {
            Ok(()) => Ok(()),
            Err(_) => Err(ItemFault::Memory),
        },
        Ok(None) => Ok(()),
        Err(fault) => Err(fault),
    }
}

/// Calls the function on the items of a block by ascending index, up to the first bad one, and enters the gate with
/// `job` and the index just before each call. Err is want of memory.
pub(crate) fn block_values<F: ItemFn, G: Gate>(
    alloc: Global,
    kind: Kind,
    items: &Items,
    job: u32,
    block: Range,
    function: &mut F,
    gate: &G,
) -> Result<Block, NoMemory>
    requires { block.end ≤ length items.now }
    ensures block { let work = workload items.now (F.value function.old) in
        IfOk result (IsBlockOf work (block.begin, block.end)) }
    ensures called { IfOk result (λ made. F.called function.new
        ≡ F.called function.old ++ called_in (block.begin, block.end) made) }
    ensures value_stays { F.value function.new ≡ F.value function.old }
    ensures front { let work = workload items.now (F.value function.old) in
        OnErr result (CallsUpTo work (block.begin, block.end) (F.called function.old) (F.called function.new)) }
{
    let mut values = Vec::with_capacity(alloc, first_room(kind, block))?;
    for index in block.begin..block.end {
        gate.enter(job, index);
        let item = items.get(index).unwrap();
        match take_value(function, index, item, &mut values) {
            Ok(()) => {}
            Err(ItemFault::Bad) => return Ok(Block::Bad(index)),
            Err(ItemFault::Memory) => return Err(NoMemory),
        }
    }
    Ok(Block::Kept(List::from_vec(values)))
}
