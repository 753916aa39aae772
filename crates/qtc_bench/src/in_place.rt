//! Lists that are mapped and filtered in place, beside the kit's `rayon` and a loop.
ghost use Rattle.std.specs.Prelude.{◌≡◌, ◌≤◌, All, IfOk, length};
ghost use Rattle.qtc_ops.specs.Operations.{value_of};

use crate::tables::print_table;
use crate::texts::{LINES, lines};
use crate::timing::{Row, Timed, Work};
use qtc_base::{Bytes, NoMemory, Value};
use qtc_inplace::{InPlaceFault, filter_in_place, map_in_place, maps_never_drop};
use qtc_ops::{ItemFn, ItemOp, MapOp, OpFn, Pred};
use rayon::prelude::*;
use sha2::{Digest, Sha256};
use std::alloc::{AllocError, Global};
use std::io;
use std::rt::Clock;
use std::sync::Wait;
use std::thread::Threads;
use std::time::Instant;

/// The members of a chunk.
const CHUNK: u32 = 1024;

/// The bytes of the longest member that a filter drops.
const SHORT: u32 = 9;

/// What is done with the list.
#[derive(Clone, Copy)]
enum Means {
    /// Each member becomes its digest, by so many functions.
    Map(u32),
    /// The same, by the kit's `rayon`.
    Rayon,
    /// The longer members stay, by so many functions.
    Filter(u32),
    /// The same, by a loop.
    Retain,
}

/// Work on a list of numbers.
#[derive(Drop)]
struct Listed {
    alloc: Global,
    means: Means,
}

impl Listed {
    /// Does the work: the number of bytes that are then in the list.
    fn change<R: Threads + Sync>(&self, rt: &R, list: &mut Vec<Bytes>) -> io::Result<u64>
        requires { length list.old.items ≡ LINES }
    {
        let alloc = self.alloc;
        match self.means {
            Means::Map(count) => {
                let count = count.clamp(1, 32);
                map_by(alloc, rt, list.as_mut_slice(), count).map_err(|_| AllocError)?;
            }
            Means::Rayon => digest_each(alloc, rt, list.as_mut_slice()),
            Means::Filter(count) => {
                let count = count.clamp(1, 32);
                filter_by(alloc, rt, list, count).map_err(|_| AllocError)?;
            }
            Means::Retain => list.retain(|member| member.len() > SHORT as usize),
        }
        Ok(bytes_of(list.as_slice()))
    }
}

impl Work for Listed {
    fn run<R: Wait + Threads + Sync>(&self, rt: &R) -> io::Result<u64> {
        let mut list = numbers(self.alloc)?;
        self.change(rt, &mut list)
    }

    fn time<R: Clock + Wait + Threads + Sync>(&self, rt: &R) -> io::Result<Timed> {
        let mut list = numbers(self.alloc)?;
        let begin = Instant::now(rt)?;
        let answer = self.change(rt, &mut list)?;
        Timed::since(rt, begin, answer)
    }
}

/// A list of the numbers.
fn numbers(alloc: Global) -> io::Result<Vec<Bytes>>
    ensures { IfOk result (λ made. length made.items ≡ LINES) }
{
    let items = lines(alloc, 1)?;
    let mut list = Vec::new(alloc);
    for index in 0..LINES {
        let item = items.get(index).unwrap_or(b"");
        list.push(Bytes::from_slice(alloc, item).map_err(|_| AllocError)?)?;
    }
    Ok(list)
}

/// The number of bytes of all members.
fn bytes_of(list: &[Bytes]) -> u64 {
    let mut bytes = 0u64;
    for member in list {
        bytes = bytes.wrapping_add(member.as_slice().len() as u64);
    }
    bytes
}

/// So many functions of an operation.
fn functions_of(alloc: Global, op: &ItemOp, count: u32) -> Result<Vec<OpFn>, NoMemory>
    ensures count { IfOk result (λ made. length made.items ≡ count) }
    ensures alike { IfOk result (λ made. All (λ f. ⟦<OpFn as ItemFn>⟧.value f ≡ value_of op.now) made.items) }
{
    let mut functions = Vec::new(alloc);
    for _made in 0..count {
        functions.push(OpFn::new(alloc, op.copy()?))?;
    }
    Ok(functions)
}

/// Makes each member its digest, by so many functions.
fn map_by<R: Threads + Sync>(
    alloc: Global,
    rt: &R,
    list: &mut [Bytes],
    count: u32,
) -> Result<(), InPlaceFault>
    requires list { length list.old ≡ LINES }
    requires count { (1 ≤ count) × (count ≤ 32) }
{
    let mut functions = functions_of(alloc, &ItemOp::Map(MapOp::Digest), count)?;
    maps_never_drop();
    map_in_place(alloc, rt, list, CHUNK, functions.as_mut_slice())
}

/// Keeps the longer members, by so many functions.
fn filter_by<R: Threads + Sync>(
    alloc: Global,
    rt: &R,
    list: &mut Vec<Bytes>,
    count: u32,
) -> Result<(), InPlaceFault>
    requires list { length list.old.items ≡ LINES }
    requires count { (1 ≤ count) × (count ≤ 32) }
{
    let pred = Pred::Longer(SHORT);
    let mut functions = functions_of(alloc, &ItemOp::Keep { not: false, pred }, count)?;
    filter_in_place(alloc, rt, list, CHUNK, functions.as_mut_slice())
}

/// A digest in hexadecimal, in memory of its own.
fn digest_of(alloc: Global, member: &Bytes) -> Result<Bytes, NoMemory> {
    let mut text = [0u8; 64];
    let digest = Sha256::digest(member.as_slice());
    let written = hex::encode_to_slice(digest.as_slice(), &mut text);
    prove!(written.is_ok());
    Bytes::from_slice(alloc, &text)
}

/// Makes each member its digest, by a thread for each processor.
fn digest_each<R: Threads + Sync>(alloc: Global, rt: &R, list: &mut [Bytes]) {
    par_for_each_mut(rt, list, |_index: usize, member: &mut Bytes| {
        if let Ok(text) = digest_of(alloc, member) {
            *member = text;
        }
    });
}

/// Measures lists of 1,000,000 members, and prints tables of them.
pub fn print_in_place<R: Clock + Print + Wait + Threads + Sync>(
    rt: &R,
    alloc: Global,
) -> io::Result<()> {
    let listed = |means| Listed { alloc, means };
    let maps = [
        Row::new("map_in_place, 1 function", listed(Means::Map(1))),
        Row::beside(0, "map_in_place, 2 functions", listed(Means::Map(2))),
        Row::beside(0, "map_in_place, 4 functions", listed(Means::Map(4))),
        Row::new("rayon's par_for_each_mut", listed(Means::Rayon)),
        Row::beside(3, "map_in_place, 4 functions", listed(Means::Map(4))),
    ];
    print_table(rt, alloc, "map digest", u64::from(LINES), &maps)?;
    let filters = [
        Row::new("Vec::retain", listed(Means::Retain)),
        Row::beside(0, "filter_in_place, 1 function", listed(Means::Filter(1))),
        Row::beside(1, "filter_in_place, 2 functions", listed(Means::Filter(2))),
        Row::beside(1, "filter_in_place, 4 functions", listed(Means::Filter(4))),
    ];
    print_table(rt, alloc, "filter longer 9", u64::from(LINES), &filters)
}
