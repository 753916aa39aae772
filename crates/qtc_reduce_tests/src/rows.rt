// The core of a reduction: rows of calls, each with what it is answered.
ghost use Rattle.std.specs.Prelude.{◌≡◌, ◌<◌, IfOk, IsSome};

use qtc_base::{Bytes, List, NoMemory, Range, decimal};
use qtc_ops::{Fold, FoldAcc, FoldOp, ItemFault};
use qtc_reduce::{Block, Folded, Kept, Next, Offer, ReduceCore};
use std::alloc::Global;
use std::process::Abort;
use std::test::Fail;

// What a call was answered, with the range of the block that it handed out.
#[derive(Clone, Copy, Debug, PartialEq, Eq)]
enum Told {
    Stored(bool),
    Out(u32, u32),
    Closed,
}

// A fold that joins texts by commas.
fn commas(alloc: Global) -> Result<FoldOp, NoMemory> {
    Ok(FoldOp::Join(Bytes::from_slice(alloc, b",")?))
}

// The block of a range whose texts are its indexes.
fn block_of(alloc: Global, begin: u32, end: u32) -> Result<Block, NoMemory>
    requires { begin < end }
    ensures { IfOk result (λ block. (block.range.begin ≡ begin) × (block.range.end ≡ end)) }
{
    let mut kept = Vec::new(alloc);
    for index in begin..end {
        let mut value = Bytes::new(alloc);
        decimal(index as u128, &mut value)?;
        kept.push(Kept { index, value })?;
    }
    Ok(Block {
        range: Range { begin, end },
        kept: List::from_vec(kept),
    })
}

// What is handed out with a block.
type Handed = (FoldAcc, Block);

// Folds a block's texts into the accumulator.
fn fold_in(fold: &FoldOp, acc: &mut FoldAcc, block: &Block) -> Result<(), ItemFault> {
    for kept in block.kept.as_slice() {
        fold.step(acc, kept.value.as_slice())?;
    }
    Ok(())
}

// Offers the block of a range: what it is answered, and what is handed out.
fn offered(
    alloc: Global,
    core: &mut ReduceCore<FoldOp>,
    begin: u32,
    end: u32,
) -> Result<(Told, Option<Handed>), NoMemory>
    requires { begin < end }
    ensures out { IfOk result (λ told. IsSome told.1 → IsSome core.new.hand) }
    ensures kept { IsSome core.old.hand → IsSome core.new.hand }
{
    match core.offer(block_of(alloc, begin, end)?)? {
        Offer::Stored(many) => Ok((Told::Stored(many), None)),
        Offer::Closed => Ok((Told::Closed, None)),
        Offer::Yours(acc, block) => {
            let told = Told::Out(block.range.begin, block.range.end);
            Ok((told, Some((acc, block))))
        }
    }
}

// Gives the accumulator back with the block folded in: what is handed out then.
fn folded_on(
    fold: &FoldOp,
    core: &mut ReduceCore<FoldOp>,
    handed: Handed,
) -> Result<Option<Handed>, ItemFault>
    requires { IsSome core.old.hand }
    ensures { IfOk result (λ next. IsSome next → IsSome core.new.hand) }
{
    let (mut acc, block) = handed;
    fold_in(fold, &mut acc, &block)?;
    match core.give_back(acc, true) {
        Next::Done => Ok(None),
        Next::More(acc, block) => Ok(Some((acc, block))),
    }
}

// Goes on until the accumulator is home, at most ten times.
fn folded_all(
    fold: &FoldOp,
    core: &mut ReduceCore<FoldOp>,
    handed: Option<Handed>,
) -> Result<(), ItemFault>
    requires { IsSome handed → IsSome core.old.hand }
{
    let mut next = handed;
    for _ in 0..10 {
        next = match next {
            Some(handed) => folded_on(fold, core, handed)?,
            None => return Ok(()),
        };
    }
    Ok(())
}

// The text, and the begins of the folded blocks in their order; none where the reduction has not ended.
fn ended(
    alloc: Global,
    fold: &FoldOp,
    core: ReduceCore<FoldOp>,
) -> Result<Option<(Bytes, Vec<u32>)>, NoMemory> {
    let Some(Folded { acc, ranges }) = core.finish() else {
        return Ok(None);
    };
    let mut begins = Vec::new(alloc);
    for range in ranges.as_slice() {
        begins.push(range.begin)?;
    }
    Ok(Some((fold.text(alloc, &acc)?, begins)))
}

fn assert_ends(
    rt: &(impl Abort + Alloc<A = Global>),
    fold: &FoldOp,
    core: ReduceCore<FoldOp>,
    want_text: &[u8],
    want_begins: &[u32],
) -> Result<(), NoMemory> {
    match ended(rt.alloc(), fold, core)? {
        Some((text, begins)) => {
            assert_eq!(rt; text.as_slice(), want_text);
            assert_eq!(rt; begins.as_slice(), want_begins);
        }
        None => assert!(rt; false, "the reduction has not ended"),
    }
    Ok(())
}

#[test]
fn thirty_blocks_wait_for_one_worker_and_one_more_is_told(rt: HostRuntime) -> Result<(), Fail> {
    let alloc = rt.alloc();
    let fold = commas(alloc)?;
    let mut core = ReduceCore::new(alloc, &fold, true, 1)?;
    for begin in 1..32u32 {
        let (told, _) = offered(alloc, &mut core, begin, begin + 1)?;
        assert_eq!(rt; told, Told::Stored(begin == 31));
    }
    assert_eq!(rt; core.stored(), 31);
    assert!(rt; core.finish().is_none());
    Ok(())
}

#[test]
fn an_ordered_reduction_folds_by_ascending_begin(rt: HostRuntime) -> Result<(), Fail> {
    let alloc = rt.alloc();
    let fold = commas(alloc)?;
    let mut core = ReduceCore::new(alloc, &fold, true, 1)?;
    assert_eq!(rt; offered(alloc, &mut core, 2, 4)?.0, Told::Stored(false));
    let (told, handed) = offered(alloc, &mut core, 0, 2)?;
    assert_eq!(rt; told, Told::Out(0, 2));
    assert_eq!(rt; core.stored(), 1);
    folded_all(&fold, &mut core, handed)?;
    assert_ends(&rt, &fold, core, b"0,1,2,3", [0, 2].as_slice())?;
    Ok(())
}

#[test]
fn an_unordered_reduction_folds_as_blocks_come_and_then_the_least(
    rt: HostRuntime,
) -> Result<(), Fail> {
    let alloc = rt.alloc();
    let fold = commas(alloc)?;
    let mut core = ReduceCore::new(alloc, &fold, false, 1)?;
    let (told, handed) = offered(alloc, &mut core, 4, 6)?;
    assert_eq!(rt; told, Told::Out(4, 6));
    let (told, _) = offered(alloc, &mut core, 6, 7)?;
    assert_eq!(rt; told, Told::Stored(false));
    let (told, _) = offered(alloc, &mut core, 0, 2)?;
    assert_eq!(rt; told, Told::Stored(false));
    let (told, _) = offered(alloc, &mut core, 2, 4)?;
    assert_eq!(rt; told, Told::Stored(false));
    folded_all(&fold, &mut core, handed)?;
    assert_ends(&rt, &fold, core, b"4,5,0,1,2,3,6", [4, 0, 2, 6].as_slice())?;
    Ok(())
}

#[test]
fn an_unfinished_block_closes_the_reduction(rt: HostRuntime) -> Result<(), Fail> {
    let alloc = rt.alloc();
    let fold = commas(alloc)?;
    let mut core = ReduceCore::new(alloc, &fold, true, 1)?;
    if let Offer::Yours(acc, _) = core.offer(block_of(alloc, 0, 2)?)? {
        assert!(rt; matches!(core.give_back(acc, false), Next::Done));
    }
    assert_eq!(rt; offered(alloc, &mut core, 2, 4)?.0, Told::Closed);
    assert!(rt; core.finish().is_none());
    Ok(())
}

#[test]
fn a_reduction_of_nothing_has_the_first_accumulator(rt: HostRuntime) -> Result<(), Fail> {
    let fold = FoldOp::Count;
    let core = ReduceCore::new(rt.alloc(), &fold, true, 32)?;
    assert_ends(&rt, &fold, core, b"0", [].as_slice())?;
    Ok(())
}
