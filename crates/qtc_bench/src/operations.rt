//! The operations of jobs, over items in memory.
use crate::tables::print_table;
use crate::texts::{LINES, lines};
use crate::timing::{Row, Work};
use memchr::memmem;
use qtc_base::{Bytes, Items, Value};
use qtc_ops::{Fold, FoldOp, ItemFault, ItemFn, ItemOp, MapOp, OpFn, Pred};
use std::alloc::{AllocError, Global};
use std::io;
use std::rt::Clock;
use std::sync::Wait;
use std::thread::Threads;

/// What the predicates look for.
const LITERAL: &[u8] = b"77";

/// What is done with each item.
#[derive(Drop)]
enum Step {
    /// It is read.
    Read,
    /// The literal is searched for by the kit's search alone.
    Find,
    /// The predicate tests it.
    Test(Pred),
    /// The item function of the operation is applied.
    Apply(ItemOp),
    /// It is a value of the fold, whose text comes after the last.
    Fold(FoldOp),
}

/// A step at each item.
#[derive(Drop)]
struct Pass<'a> {
    alloc: Global,
    items: &'a Items,
    step: Step,
}

impl Work for Pass<'_> {
    fn run<R: Wait + Threads + Sync>(&self, _rt: &R) -> io::Result<u64> {
        match &self.step {
            Step::Read => Ok(read_all(self.items)),
            Step::Find => Ok(find_in_all(self.items)),
            Step::Test(pred) => Ok(test_all(self.items, pred)),
            Step::Apply(op) => apply_to_all(self.alloc, self.items, op),
            Step::Fold(op) => fold_all(self.alloc, self.items, op),
        }
    }
}

/// The number of bytes.
fn read_all(items: &Items) -> u64 {
    let mut bytes = 0u64;
    for index in 0..items.len() {
        let item = items.get(index).unwrap();
        bytes = bytes.wrapping_add(item.len() as u64);
    }
    bytes
}

/// How many items have the literal.
fn find_in_all(items: &Items) -> u64 {
    let mut found = 0u64;
    for index in 0..items.len() {
        let item = items.get(index).unwrap();
        if memmem::find(item, LITERAL).is_some() {
            found = found.wrapping_add(1);
        }
    }
    found
}

/// How many items the predicate keeps.
fn test_all(items: &Items, pred: &Pred) -> u64 {
    let mut kept = 0u64;
    for index in 0..items.len() {
        let item = items.get(index).unwrap();
        if pred.keeps(item) {
            kept = kept.wrapping_add(1);
        }
    }
    kept
}

/// The number of bytes of the values that a new item function of the operation keeps.
fn apply_to_all(alloc: Global, items: &Items, op: &ItemOp) -> io::Result<u64> {
    let mut function = OpFn::new(alloc, op.copy().map_err(|_| AllocError)?);
    let mut bytes = 0u64;
    for index in 0..items.len() {
        let item = items.get(index).unwrap();
        match function.apply(index, item) {
            Ok(Some(value)) => bytes = bytes.wrapping_add(value.len() as u64),
            Ok(None) | Err(ItemFault::Bad) => {}
            Err(ItemFault::Memory) => Err(AllocError)?,
        }
    }
    Ok(bytes)
}

/// The number of bytes of the text that the fold makes of the items.
fn fold_all(alloc: Global, items: &Items, op: &FoldOp) -> io::Result<u64> {
    let mut acc = op.start(alloc).map_err(|_| AllocError)?;
    for index in 0..items.len() {
        let item = items.get(index).unwrap();
        if let Err(ItemFault::Memory) = op.step(&mut acc, item) {
            Err(AllocError)?;
        }
    }
    let text = op.text(alloc, &acc).map_err(|_| AllocError)?;
    Ok(text.len() as u64)
}

fn literal(alloc: Global, text: &[u8]) -> io::Result<Bytes> {
    Ok(Bytes::from_slice(alloc, text).map_err(|_| AllocError)?)
}

/// The maps over lines of one number, and `field 2` over lines of three.
fn print_maps<R: Clock + Print + Wait + Threads + Sync>(
    rt: &R,
    alloc: Global,
    single: &Items,
    triple: &Items,
) -> io::Result<()> {
    let pass = |items, step| Pass { alloc, items, step };
    let map = |items, op| pass(items, Step::Apply(ItemOp::Map(op)));
    let rows = [
        Row::new("the loop alone, one number", pass(single, Step::Read)),
        Row::new("the loop alone, three numbers", pass(triple, Step::Read)),
        Row::new("same", map(single, MapOp::Same)),
        Row::new("length", map(single, MapOp::Length)),
        Row::new("digest", map(single, MapOp::Digest)),
        Row::new("field 2", map(triple, MapOp::Field(2))),
        Row::new("number", map(single, MapOp::Number)),
    ];
    print_table(rt, alloc, "maps", u64::from(LINES), &rows)
}

/// The predicates over lines of some numbers.
fn print_predicates<R: Clock + Print + Wait + Threads + Sync>(
    rt: &R,
    alloc: Global,
    title: &str,
    items: &Items,
) -> io::Result<()> {
    let pass = |step| Pass { alloc, items, step };
    let keep = |not, pred| pass(Step::Apply(ItemOp::Keep { not, pred }));
    let contains = Pred::Contains(literal(alloc, LITERAL)?);
    let not_contains = Pred::Contains(literal(alloc, LITERAL)?);
    let alone = Pred::Contains(literal(alloc, LITERAL)?);
    let wildcard = Pred::Wildcard(literal(alloc, b"*7*7*")?);
    let rows = [
        Row::new("the kit's memmem::find 77", pass(Step::Find)),
        Row::beside(0, "contains 77, the test alone", pass(Step::Test(alone))),
        Row::beside(0, "contains 77", keep(false, contains)),
        Row::beside(0, "not contains 77", keep(true, not_contains)),
        Row::new("wildcard *7*7*", keep(false, wildcard)),
        Row::new("longer 9", keep(false, Pred::Longer(9))),
    ];
    print_table(rt, alloc, title, u64::from(LINES), &rows)
}

/// The folds over lines of one number.
fn print_folds<R: Clock + Print + Wait + Threads + Sync>(
    rt: &R,
    alloc: Global,
    items: &Items,
) -> io::Result<()> {
    let fold = |op| Pass {
        alloc,
        items,
        step: Step::Fold(op),
    };
    let separator = literal(alloc, b",")?;
    let rows = [
        Row::new("count", fold(FoldOp::Count)),
        Row::new("bytes", fold(FoldOp::Size)),
        Row::new("sum", fold(FoldOp::Sum)),
        Row::new("join ,", fold(FoldOp::Join(separator))),
        Row::new("chain", fold(FoldOp::Chain)),
        Row::new("greatest", fold(FoldOp::Greatest)),
        Row::new("tally", fold(FoldOp::Tally)),
    ];
    print_table(rt, alloc, "folds", u64::from(LINES), &rows)
}

/// Measures the maps, the predicates and the folds, and prints a table of each.
pub fn print_operations<R: Clock + Print + Wait + Threads + Sync>(
    rt: &R,
    alloc: Global,
) -> io::Result<()> {
    let single = lines(alloc, 1)?;
    let triple = lines(alloc, 3)?;
    print_maps(rt, alloc, &single, &triple)?;
    print_predicates(rt, alloc, "predicates, one number", &single)?;
    print_predicates(rt, alloc, "predicates, three numbers", &triple)?;
    print_folds(rt, alloc, &single)
}
