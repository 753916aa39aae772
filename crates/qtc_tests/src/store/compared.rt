//! The store beside the plain program of its definitions.
ghost use Rattle.std.specs.Prelude.{◌≡◌, ◌+◌, ◌<◌, ◌≤◌, false, length};

use super::list;
use super::plain::PlainStore;
use qtc_store::{AddFault, Added, ResultStore};
use std::alloc::{AllocError, Global};
use std::test::Fail;

/// The first seed, and how many are tried. Many more were tried by hand.
const FIRST_SEED: u64 = 1;

const SEEDS: u64 = 25;

/// How many additions a seed gives, and how many indexes are read after each.
const ADDITIONS: u32 = 40;

const READS: u32 = 80;

/// Where the values of a batch are taken from, so that most batches differ.
const POOL: &[u8] = b"abcdefghijklmnopqrstuvwxyzABCDEFGHIJKLMNOPQRSTUVWXYZ0123456789+/";

/// Pseudo-random numbers, by a linear congruential generator.
#[derive(Drop)]
struct Random {
    state: u64,
}

impl Random {
    fn below(&mut self, most: u32) -> u32
        requires { 0 < most }
        ensures { result < most }
    {
        let state = self.state.wrapping_mul(6_364_136_223_846_793_005);
        self.state = state.wrapping_add(1_442_695_040_888_963_407);
        ((self.state >> 33) as u32) % most
    }

    /// Some values, so many.
    fn values(&mut self, len: u32) -> &'static [u8]
        requires { len ≤ 6 }
        ensures { length result.now ≡ len }
    {
        part(POOL, self.below(58) as usize, len as usize)
    }

    /// Where a batch begins: mostly near 0, at times near the limit.
    fn begin(&mut self) -> u32 {
        if self.below(16) == 0 {
            8_388_600 + self.below(16)
        } else {
            self.below(64)
        }
    }
}

/// So many values from a place on.
fn part(values: &[u8], at: usize, len: usize) -> &[u8]
    requires { at + len ≤ length values.now }
    ensures { length result.now ≡ len }
{
    &values[at..at + len]
}

/// Offers a copy of the values to the store.
fn offer(
    alloc: Global,
    store: &mut ResultStore<u8>,
    begin: u32,
    values: &[u8],
    total: u32,
) -> Result<Added, AddFault>
    requires few { length values.now ≤ total }
    requires whole { store.old.filter ≡ false → length values.now ≡ total }
{
    let Ok(values) = list(alloc, values) else {
        return Err(AddFault::Memory);
    };
    store.add_batch(begin, values, total)
}

/// Offers the same random addition to both. Whether both answer the same.
fn add_to_both(
    alloc: Global,
    random: &mut Random,
    store: &mut ResultStore<u8>,
    plain: &mut PlainStore<'static>,
) -> bool {
    let total = random.below(6);
    let begin = random.begin();
    if store.is_filter() {
        let kept = random.below(total + 1);
        let values = random.values(kept);
        return offer(alloc, store, begin, values, total) == plain.add(begin, values, total);
    }
    if total > 0 {
        let values = random.values(total);
        return offer(alloc, store, begin, values, total) == plain.add(begin, values, total);
    }
    let values = random.values(1);
    let begin = plain.insert_index();
    store.add(None, values[0]) == plain.add(begin, values, 1)
}

/// Whether every query of both answers the same.
fn answer_the_same(
    alloc: Global,
    store: &ResultStore<u8>,
    plain: &PlainStore<'static>,
) -> Result<bool, AllocError> {
    let mut same = store.count() == plain.count() && store.insert_index() == plain.insert_index();
    for index in (0..READS).chain(8_388_600..8_388_610) {
        let value = plain.get(index);
        same &= store.get(index).copied() == value && store.contains(index) == value.is_some();
    }
    let Ok(told) = store.batches() else {
        return Err(AllocError);
    };
    let ranges = plain.ranges(alloc)?;
    same &= told.len() == ranges.len();
    for (range, (begin, end)) in told.as_slice().iter().zip(ranges.iter()) {
        same &= range.begin == *begin && range.end == *end;
    }
    Ok(same)
}

/// Whether the store's results are those of the plain program below its count.
fn ends_the_same(store: ResultStore<u8>, plain: &PlainStore<'static>) -> Result<bool, AllocError> {
    let Ok(results) = store.into_results() else {
        return Err(AllocError);
    };
    let mut same = results.len() == plain.count() as usize;
    for (index, value) in (0..plain.count()).zip(results.as_slice()) {
        same &= plain.get(index) == Some(*value);
    }
    Ok(same)
}

#[test]
fn the_store_answers_as_the_plain_program(rt: HostRuntime) -> Result<(), Fail> {
    let alloc = rt.alloc();
    for seed in FIRST_SEED..FIRST_SEED + SEEDS {
        println!(rt; "seed {seed}")?;
        for filter in [false, true] {
            let mut random = Random { state: seed };
            let mut store = ResultStore::new(alloc, filter);
            let mut plain = PlainStore::new(alloc, filter);
            for at in 0..ADDITIONS {
                assert!(rt;
                    add_to_both(alloc, &mut random, &mut store, &mut plain),
                    "addition {at}"
                );
                assert!(rt;
                    answer_the_same(alloc, &store, &plain)?,
                    "after addition {at}"
                );
            }
            assert!(rt; ends_the_same(store, &plain)?, "at the end");
        }
    }
    Ok(())
}

/// 200,000 batches behind one another's gaps, the last one first, as no list of batches would bear.
#[test]
fn many_batches_come_in_descending_order(rt: HostRuntime) -> Result<(), Fail> {
    let alloc = rt.alloc();
    let mut store = ResultStore::new(alloc, true);
    for k in (0..200_000u32).rev() {
        let values = list(alloc, &[(k % 251) as u8])?;
        let added = store.add_batch(2 * k, values, 2)?;
        assert_eq!(rt; added.new_count, if k == 0 { 200_000 } else { 0 });
    }
    for position in 0..200_000u32 {
        assert_eq!(rt; store.get(position), Some(&((position % 251) as u8)));
    }
    assert_eq!(rt; store.count(), 200_000);
    Ok(())
}
