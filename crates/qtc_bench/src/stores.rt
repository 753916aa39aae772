//! The store of results, as batches come in several orders.
ghost use Rattle.std.specs.Prelude.{◌≡◌, ◌≤◌, false, length, IfOk};

use crate::tables::print_table;
use crate::texts::Numbers;
use crate::timing::{Row, Work};
use qtc_base::List;
use qtc_store::ResultStore;
use std::alloc::{AllocError, Global};
use std::io;
use std::rt::Clock;
use std::sync::Wait;
use std::thread::Threads;

/// How many indexes a batch covers, and how many values a filter keeps of them.
const SIZE: u32 = 8;

const KEPT: u32 = 4;

/// The values of a batch, and those that a filter keeps.
const VALUES: [u32; 8] = [1, 2, 3, 4, 5, 6, 7, 8];

const KEPT_VALUES: [u32; 4] = [2, 4, 6, 8];

/// The order in which batches come.
#[derive(Clone, Copy)]
pub enum Order {
    Ascending,
    Descending,
    Shuffled,
}

/// Puts the numbers in a pseudo-random order.
fn shuffle(places: &mut [u32]) {
    let mut numbers = Numbers::starting_at_one();
    for last in 1..places.len() {
        let other = (numbers.advance() >> 8) as usize % (last + 1);
        places.swap(last, other);
    }
}

/// The numbers of so many batches, in the order in which they come.
fn places(alloc: Global, order: Order, count: u32) -> io::Result<Vec<u32>> {
    let mut places = Vec::new(alloc);
    for place in 0..count {
        places.push(place)?;
    }
    match order {
        Order::Ascending => {}
        Order::Descending => places.reverse(),
        Order::Shuffled => shuffle(&mut places),
    }
    Ok(places)
}

/// The values of one batch.
fn values(alloc: Global, filter: bool) -> Result<List<u32>, AllocError>
    ensures few { IfOk result (λ values. length values ≤ SIZE) }
    ensures whole { filter ≡ false → IfOk result (λ values. length values ≡ SIZE) }
{
    let values = if filter {
        Vec::from_slice(alloc, &KEPT_VALUES)?
    } else {
        Vec::from_slice(alloc, &VALUES)?
    };
    Ok(List::from_vec(values))
}

/// Adds the batch of a place.
fn add(alloc: Global, store: &mut ResultStore<u32>, place: u32) -> io::Result<()> {
    let values = values(alloc, store.is_filter())?;
    store
        .add_batch(place.wrapping_mul(SIZE), values, SIZE)
        .map_err(|_| AllocError)?;
    Ok(())
}

/// A store of the batches of these places.
fn filled(alloc: Global, places: &[u32], filter: bool) -> io::Result<ResultStore<u32>> {
    let mut store = ResultStore::new(alloc, filter);
    for place in places {
        add(alloc, &mut store, *place)?;
    }
    Ok(store)
}

/// What is done with each place.
#[derive(Drop)]
enum Step<'a> {
    /// The values of its batch are made.
    Make(bool),
    /// They are made, and live until all are.
    Keep(bool),
    /// Its batch is added to a store.
    Add(bool),
    /// A value of its batch is read.
    Get(&'a ResultStore<u32>),
}

/// A step at each place.
#[derive(Drop)]
struct Pass<'a> {
    alloc: Global,
    places: &'a [u32],
    step: Step<'a>,
}

impl Work for Pass<'_> {
    fn run<R: Wait + Threads + Sync>(&self, _rt: &R) -> io::Result<u64> {
        match &self.step {
            Step::Make(filter) => make_all(self.alloc, self.places, *filter),
            Step::Keep(filter) => keep_all(self.alloc, self.places, *filter),
            Step::Add(filter) => {
                let store = filled(self.alloc, self.places, *filter)?;
                Ok(u64::from(store.count()))
            }
            Step::Get(store) => Ok(get_all(store, self.places)),
        }
    }
}

/// The number of values of all batches, each made and freed.
fn make_all(alloc: Global, places: &[u32], filter: bool) -> io::Result<u64> {
    let mut all = 0u64;
    for _ in places {
        all = all.wrapping_add(values(alloc, filter)?.len() as u64);
    }
    Ok(all)
}

/// The number of batches, the values of all of which live at once.
fn keep_all(alloc: Global, places: &[u32], filter: bool) -> io::Result<u64> {
    let mut all = Vec::with_capacity(alloc, places.len())?;
    for _ in places {
        all.push(values(alloc, filter)?)?;
    }
    Ok(all.len() as u64)
}

/// The sum of the first value of each batch.
fn get_all(store: &ResultStore<u32>, places: &[u32]) -> u64 {
    let width = if store.is_filter() { KEPT } else { SIZE };
    let mut sum = 0u64;
    for place in places {
        let value = store.get(place.wrapping_mul(width)).copied();
        sum = sum.wrapping_add(u64::from(value.unwrap_or(0)));
    }
    sum
}

/// The rows of one mode and one number of batches.
fn print_rows<R: Clock + Print + Wait + Threads + Sync>(
    rt: &R,
    alloc: Global,
    title: &str,
    filter: bool,
    count: u32,
) -> io::Result<()> {
    let ascending = places(alloc, Order::Ascending, count)?;
    let descending = places(alloc, Order::Descending, count)?;
    let shuffled = places(alloc, Order::Shuffled, count)?;
    let store = filled(alloc, &ascending, filter)?;
    let pass = |places, step| Pass {
        alloc,
        places,
        step,
    };
    let rows = [
        Row::new(
            "values made and freed",
            pass(&ascending, Step::Make(filter)),
        ),
        Row::beside(
            0,
            "values made and kept",
            pass(&ascending, Step::Keep(filter)),
        ),
        Row::beside(0, "add, ascending", pass(&ascending, Step::Add(filter))),
        Row::beside(0, "add, descending", pass(&descending, Step::Add(filter))),
        Row::beside(0, "add, shuffled", pass(&shuffled, Step::Add(filter))),
        Row::new("get, ascending", pass(&ascending, Step::Get(&store))),
        Row::new("get, shuffled", pass(&shuffled, Step::Get(&store))),
    ];
    print_table(rt, alloc, title, u64::from(count.max(1)), &rows)
}

/// The rows of a plain store whose first batch never comes, so that all wait.
fn print_waiting<R: Clock + Print + Wait + Threads + Sync>(
    rt: &R,
    alloc: Global,
    title: &str,
    count: u32,
) -> io::Result<()> {
    let ascending = places(alloc, Order::Ascending, count)?;
    let shuffled = places(alloc, Order::Shuffled, count)?;
    let store = filled(alloc, ascending.get(1..).unwrap_or(&[]), false)?;
    let get = |places| Pass {
        alloc,
        places,
        step: Step::Get(&store),
    };
    let rows = [
        Row::new("get, ascending", get(&ascending)),
        Row::new("get, shuffled", get(&shuffled)),
    ];
    print_table(rt, alloc, title, u64::from(count.max(1)), &rows)
}

/// Measures plain and filter stores of a few and of many batches, and prints a table of each.
pub fn print_stores<R: Clock + Print + Wait + Threads + Sync>(
    rt: &R,
    alloc: Global,
) -> io::Result<()> {
    print_rows(rt, alloc, "plain, 62500 batches", false, 62_500)?;
    print_rows(rt, alloc, "plain, 1000000 batches", false, 1_000_000)?;
    print_rows(rt, alloc, "filtered, 62500 batches", true, 62_500)?;
    print_rows(rt, alloc, "filtered, 1000000 batches", true, 1_000_000)?;
    print_waiting(rt, alloc, "plain, 1000000 behind a gap", 1_000_000)
}

/// Adds a batch without values to a filter store.
fn add_empty(alloc: Global, store: &mut ResultStore<u32>, place: u32) -> io::Result<()> {
    if store.is_filter() {
        store
            .add_batch(place.wrapping_mul(SIZE), List::new(alloc), SIZE)
            .map_err(|_| AllocError)?;
    }
    Ok(())
}

/// Fills a filter store with 1,000,000 batches without values, so that what it takes beside values can be read
/// off the process. Prints its insert index.
pub fn print_filled<R: Print>(rt: &R, alloc: Global, order: Order) -> io::Result<()> {
    let places = places(alloc, order, 1_000_000)?;
    let mut store = ResultStore::new(alloc, true);
    for place in places {
        add_empty(alloc, &mut store, place)?;
    }
    let end = store.insert_index();
    println!(rt; "{end}")
}
