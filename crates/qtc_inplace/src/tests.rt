ghost use Rattle.std.specs.Prelude.{◌≡◌, ◌≤◌, All, IfOk, length, nat_lt};
ghost use Rattle.qtc_ops.specs.Operations.{kept_where, value_of};

use super::*;
use qtc_base::{Bytes, List, NoMemory, Value, decimal};
use qtc_ops::{ItemFault, ItemFn, ItemOp, MapOp, OpFn, Pred};
use std::alloc::Global;
use std::process::Abort;
use std::test::Fail;
use std::thread::Threads;

/// A list of these members.
fn list_of(alloc: Global, members: &[&[u8]]) -> Result<Vec<Bytes>, NoMemory> {
    let mut list = Vec::new(alloc);
    for member in members {
        list.push(Bytes::from_slice(alloc, member)?)?;
    }
    Ok(list)
}

/// So many functions of an operation.
fn functions_of(alloc: Global, op: &ItemOp, count: u32) -> Result<Vec<OpFn>, NoMemory>
    ensures count { IfOk result (λ made. length made.items ≡ count) }
    ensures alike { IfOk result (λ made. All (λ f. ⟦<OpFn as ItemFn>⟧.value f ≡ value_of op.now) made.items) }
{
    let mut functions = Vec::new(alloc);
    for _made in 0..count {
        functions.push(OpFn::new(alloc, op.copy()?))?;
    }
    Ok(functions)
}

/// Maps a list in place by so many functions.
fn map_by<R: Threads + Sync>(
    alloc: Global,
    rt: &R,
    list: &mut [Bytes],
    chunk: u32,
    op: MapOp,
    count: u32,
) -> Result<(), InPlaceFault>
    requires list { length list.old ≤ 8388608 }
    requires chunk { (1 ≤ chunk) × (chunk ≤ 65536) }
    requires count { (1 ≤ count) × (count ≤ 32) }
{
    let mut functions = functions_of(alloc, &ItemOp::Map(op), count)?;
    maps_never_drop();
    map_in_place(alloc, rt, list, chunk, functions.as_mut_slice())
}

/// Filters a list in place by so many functions.
fn filter_by<R: Threads + Sync>(
    alloc: Global,
    rt: &R,
    list: &mut Vec<Bytes>,
    chunk: u32,
    bound: u32,
    count: u32,
) -> Result<(), InPlaceFault>
    requires list { length list.old.items ≤ 8388608 }
    requires chunk { (1 ≤ chunk) × (chunk ≤ 65536) }
    requires count { (1 ≤ count) × (count ≤ 32) }
{
    let pred = Pred::Longer(bound);
    let mut functions = functions_of(alloc, &ItemOp::Keep { not: false, pred }, count)?;
    filter_in_place(alloc, rt, list, chunk, functions.as_mut_slice())
}

/// What a list is mapped to by so many functions.
fn mapped_by<R: Threads + Sync>(
    alloc: Global,
    rt: &R,
    list: &[Bytes],
    chunk: u32,
    op: MapOp,
    count: u32,
) -> Result<Vec<Bytes>, InPlaceFault>
    requires list { length list.now ≤ 8388608 }
    requires chunk { (1 ≤ chunk) × (chunk ≤ 65536) }
    requires count { (1 ≤ count) × (count ≤ 32) }
{
    let mut functions = functions_of(alloc, &ItemOp::Map(op), count)?;
    blocking_mapped(alloc, rt, list, chunk, functions.as_mut_slice())
}

/// What is kept of a list by so many functions.
fn filtered_by<R: Threads + Sync>(
    alloc: Global,
    rt: &R,
    list: &[Bytes],
    chunk: u32,
    bound: u32,
    count: u32,
) -> Result<Vec<Bytes>, InPlaceFault>
    requires list { length list.now ≤ 8388608 }
    requires chunk { (1 ≤ chunk) × (chunk ≤ 65536) }
    requires count { (1 ≤ count) × (count ≤ 32) }
{
    let pred = Pred::Longer(bound);
    let mut functions = functions_of(alloc, &ItemOp::Keep { not: false, pred }, count)?;
    blocking_filtered(alloc, rt, list, chunk, functions.as_mut_slice())
}

/// The list has just these members.
fn assert_list(rt: &impl Abort, list: &[Bytes], want: &[&[u8]]) {
    assert_eq!(rt; list.len(), want.len());
    for (member, text) in list.iter().zip(want) {
        assert_eq!(rt; member.as_slice(), *text);
    }
}

/// The first use of the crate's page.
#[test]
fn lengths_take_the_place_of_members(rt: HostRuntime) -> Result<(), Fail> {
    let alloc = rt.alloc();
    let mut list = list_of(alloc, &[b"a", b"bb", b"ccc"])?;
    assert!(&rt; list.len() <= 8);
    let first = OpFn::new(alloc, ItemOp::Map(MapOp::Length));
    let second = OpFn::new(alloc, ItemOp::Map(MapOp::Length));
    maps_never_drop();
    let mut functions = [first, second];
    let done = map_in_place(alloc, &rt, list.as_mut_slice(), 2, &mut functions);
    assert_eq!(rt; done, Ok(()));
    assert_list(&rt, list.as_slice(), &[b"1", b"2", b"3"]);
    Ok(())
}

/// Keeps what isn't empty.
#[derive(Drop)]
struct Filled {
    alloc: Global,
    calls: List<u32>,
}

impl ItemFn for Filled {
    ghost value = { λ f item. kept_where (nat_lt 0 (length item)) item };

    ghost called = { λ f. f.calls };

    fn apply(&mut self, index: u32, item: &[u8]) -> Result<Option<Bytes>, ItemFault> {
        let text = if item.is_empty() {
            None
        } else {
            Some(Bytes::from_slice(self.alloc, item)?)
        };
        if self.calls.push(index).is_err() {
            return Err(ItemFault::Memory);
        }
        Ok(text)
    }

    fn calls(&self) -> &[u32] {
        self.calls.as_slice()
    }
}

#[test]
fn a_function_of_ones_own_filters(rt: HostRuntime) -> Result<(), Fail> {
    let alloc = rt.alloc();
    let filled = || Filled {
        alloc,
        calls: List::new(alloc),
    };
    let mut functions = [filled(), filled()];
    let mut list = list_of(alloc, &[b"a", b"", b"", b"d", b""])?;
    assert!(&rt; list.len() <= 8);
    let done = filter_in_place(alloc, &rt, &mut list, 2, &mut functions);
    assert_eq!(rt; done, Ok(()));
    assert_list(&rt, list.as_slice(), &[b"a", b"d"]);
    assert_eq!(rt; functions[0].calls(), [0, 1].as_slice());
    assert_eq!(rt; functions[1].calls(), [2, 3, 4].as_slice());
    Ok(())
}

/// The chunk with the bad member is as before, and the others are new.
#[test]
fn a_chunk_with_a_bad_member_stays(rt: HostRuntime) -> Result<(), Fail> {
    let alloc = rt.alloc();
    let mut list = list_of(alloc, &[b"01", b"02", b"x", b"04", b"05"])?;
    assert!(&rt; list.len() <= 8);
    let done = map_by(alloc, &rt, list.as_mut_slice(), 2, MapOp::Number, 2);
    assert_eq!(rt; done, Err(InPlaceFault::Bad(2)));
    assert_list(&rt, list.as_slice(), &[b"1", b"2", b"x", b"04", b"5"]);
    Ok(())
}

/// Whether the list has just these members.
fn has_members(list: &[Bytes], want: &[&[u8]]) -> bool {
    list.len() == want.len()
        && list
            .iter()
            .zip(want)
            .all(|(member, text)| member.as_slice() == *text)
}

/// Each chunk is old or new as a whole. It is so too where an allocation is refused, which is tried by hand
/// (`rt try --test --fail-alloc N`).
#[test]
fn chunks_are_old_or_new_as_a_whole(rt: HostRuntime) -> Result<(), Fail> {
    let alloc = rt.alloc();
    let old = [b"01".as_slice(), b"02", b"04", b"05"];
    let new = [b"1".as_slice(), b"2", b"4", b"5"];
    let Ok(mut list) = list_of(alloc, &old) else {
        return Ok(());
    };
    assert!(&rt; list.len() <= 8);
    let done = map_by(alloc, &rt, list.as_mut_slice(), 2, MapOp::Number, 2);
    if done == Ok(()) {
        assert_list(&rt, list.as_slice(), &new);
    } else {
        assert_eq!(rt; done, Err(InPlaceFault::Memory));
    }
    let chunks = list.as_slice().chunks(2);
    for ((chunk, before), after) in chunks.zip(old.chunks(2)).zip(new.chunks(2)) {
        assert!(rt; has_members(chunk, before) || has_members(chunk, after));
    }
    Ok(())
}

#[test]
fn longer_members_stay_in_order(rt: HostRuntime) -> Result<(), Fail> {
    let alloc = rt.alloc();
    let mut list = list_of(alloc, &[b"a", b"bb", b"c", b"dd"])?;
    assert!(&rt; list.len() <= 8);
    let copies = filtered_by(alloc, &rt, list.as_slice(), 1, 1, 3)?;
    assert_list(&rt, copies.as_slice(), &[b"bb", b"dd"]);
    assert_eq!(rt; filter_by(alloc, &rt, &mut list, 1, 1, 3), Ok(()));
    assert_list(&rt, list.as_slice(), &[b"bb", b"dd"]);
    Ok(())
}

#[test]
fn nothing_is_done_with_no_member(rt: HostRuntime) -> Result<(), Fail> {
    let alloc = rt.alloc();
    let mut none = Vec::new(alloc);
    let made = mapped_by(alloc, &rt, none.as_slice(), 2, MapOp::Number, 2)?;
    assert_list(&rt, made.as_slice(), &[]);
    let made = filtered_by(alloc, &rt, none.as_slice(), 2, 1, 2)?;
    assert_list(&rt, made.as_slice(), &[]);
    let done = map_by(alloc, &rt, none.as_mut_slice(), 2, MapOp::Length, 2);
    assert_eq!(rt; done, Ok(()));
    assert_eq!(rt; filter_by(alloc, &rt, &mut none, 2, 1, 2), Ok(()));
    assert_list(&rt, none.as_slice(), &[]);
    Ok(())
}

/// The numbers from 0 on, as text.
fn numbers(alloc: Global, count: u32) -> Result<Vec<Bytes>, NoMemory>
    ensures { IfOk result (λ made. length made.items ≡ count) }
{
    let mut list = Vec::new(alloc);
    for number in 0..count {
        let mut text = Bytes::new(alloc);
        decimal(u128::from(number), &mut text)?;
        list.push(text)?;
    }
    Ok(list)
}

/// So many functions map 100,000 numbers to the same lengths as one does.
fn assert_maps_by<R: Threads + Sync + Abort>(
    alloc: Global,
    rt: &R,
    lengths: &[Bytes],
    count: u32,
) -> Result<(), Fail>
    requires { (1 ≤ count) × (count ≤ 32) }
{
    let mut list = numbers(alloc, 100_000)?;
    let others = mapped_by(alloc, rt, list.as_slice(), 64, MapOp::Length, count)?;
    assert_same(rt, others.as_slice(), lengths);
    let done = map_by(alloc, rt, list.as_mut_slice(), 64, MapOp::Length, count);
    assert_eq!(rt; done, Ok(()));
    assert_same(rt, list.as_slice(), lengths);
    Ok(())
}

/// So many functions keep of 100,000 numbers what one does.
fn assert_filters_by<R: Threads + Sync + Abort>(
    alloc: Global,
    rt: &R,
    longer: &[Bytes],
    count: u32,
) -> Result<(), Fail>
    requires { (1 ≤ count) × (count ≤ 32) }
{
    let mut list = numbers(alloc, 100_000)?;
    let others = filtered_by(alloc, rt, list.as_slice(), 64, 4, count)?;
    assert_same(rt, others.as_slice(), longer);
    let done = filter_by(alloc, rt, &mut list, 64, 4, count);
    assert_eq!(rt; done, Ok(()));
    assert_same(rt, list.as_slice(), longer);
    Ok(())
}

#[test]
fn members_are_mapped_alike_by_any_number_of_functions(rt: HostRuntime) -> Result<(), Fail> {
    let alloc = rt.alloc();
    let list = numbers(alloc, 100_000)?;
    let lengths = mapped_by(alloc, &rt, list.as_slice(), 64, MapOp::Length, 1)?;
    assert_eq!(rt; lengths.len(), 100_000);
    assert_maps_by(alloc, &rt, lengths.as_slice(), 4)?;
    assert_maps_by(alloc, &rt, lengths.as_slice(), 32)
}

#[test]
fn members_are_kept_alike_by_any_number_of_functions(rt: HostRuntime) -> Result<(), Fail> {
    let alloc = rt.alloc();
    let list = numbers(alloc, 100_000)?;
    let longer = filtered_by(alloc, &rt, list.as_slice(), 64, 4, 1)?;
    assert_eq!(rt; longer.len(), 90_000);
    assert_filters_by(alloc, &rt, longer.as_slice(), 4)?;
    assert_filters_by(alloc, &rt, longer.as_slice(), 32)
}

/// Both lists have the same members.
fn assert_same(rt: &impl Abort, list: &[Bytes], want: &[Bytes]) {
    assert_eq!(rt; list.len(), want.len());
    for (member, text) in list.iter().zip(want) {
        assert!(rt; member.as_slice() == text.as_slice());
    }
}
