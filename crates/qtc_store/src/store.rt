ghost use Rattle.std.specs.Prelude.{◌≡◌, ◌+◌, ◌<◌, ◌≤◌, true, false, [], ◌∷◌, OnOk, OnErr, IfOk, IfErr, IsOk, IsSome, IsTrue, None, Some, is_some, ℕ, Err, length, map, option_copied, unwrap_or, All};
ghost use Rattle.qtc_store.specs.Batches.{greatest_end, least_covered};
ghost use Rattle.qtc_base.specs.Limits.{most_end};

use crate::batch::MOST_END;
use crate::front::Front;
use crate::pending::Pending;
use crate::{AddFault, Added, Addition, Batch};
use qtc_base::{List, NoMemory, Range};
use std::alloc::Global;
use std::marker::Model;

/// Results by index.
///
/// In plain mode each batch has a value for each index that it covers, and the store is the finite map of
/// all of them. In filter mode a batch has the values that a filter kept, and the store is one list: the
/// values of the batches that meet from index 0 on, numbered from 0. What lies behind a gap is pending. In
/// both modes an index is covered once. (After Qt's result store.)
///
/// A batch that comes in order is put at the end of a vector. One that comes before its turn waits in an
/// ordered map until the gap before it closes, and is then moved once.
#[derive(Drop)]
pub struct ResultStore<V> {
    filter: bool,
    front: Front<V>,
    pending: Pending<V>,
    end: u32,
}

impl<V> Model for ResultStore<V> {
    ghost use Rattle.qtc_store.specs.Stored.{Stored};

    ghost Value = { Stored V };

    ghost use Rattle.qtc_store.specs.Inside.{batches_in, IsLaid};

    ghost view = { λ s. record { filter = s.filter; batches = batches_in s.front s.pending } };

    ghost invariant = { λ s. IsLaid s.filter s.front s.pending s.end };
}

impl<V> ResultStore<V> {
    ghost use Rattle.qtc_store.specs.Stored.{count_of, ranges_of, value_at, refusal_of, AreRangesOf, IsFirstGap, IsFirstResults};
    ghost use Rattle.qtc_base.specs.Ranges.{bounds_of};

    /// The empty store, which takes no memory yet.
    pub fn new(alloc: Global, filter: bool) -> ResultStore<V>
        ensures { result ≡ record { filter = filter; batches = [] } }
    {
        ResultStore {
            filter,
            front: Front::new(alloc),
            pending: Pending::new(alloc),
            end: 0,
        }
    }

    pub fn is_filter(&self) -> bool
        ensures { result ≡ self.now.filter }
    {
        self.filter
    }

    /// The result at `index`, which in filter mode is a position; None exactly where plain mode stores
    /// nothing there, or the position isn't below the count.
    pub fn get(&self, index: u32) -> Option<&V>
        ensures { option_copied result ≡ value_at self.now index }
    {
        if index < self.front.count {
            return self.front.get(index);
        }
        if self.filter {
            return None;
        }
        self.pending.get(index)
    }

    /// Whether there is a result at `index`.
    pub fn contains(&self, index: u32) -> bool
        ensures { result ≡ is_some (value_at self.now index) }
    {
        self.get(index).is_some()
    }

    /// The consecutive results from 0 on, or in filter mode the visible ones.
    pub fn count(&self) -> u32
        ensures count { result ≡ count_of self.now }
        ensures first_gap { IsFirstGap self.now result }
        ensures within { result ≤ most_end }
    {
        self.front.count
    }

    /// Where a result without an index of its own goes: the greatest end of a batch, or 0.
    pub fn insert_index(&self) -> u32
        ensures index { result ≡ greatest_end self.now.batches }
        ensures within { result ≤ most_end }
    {
        self.end
    }

    /// The ranges of the stored batches, or in filter mode the positions of the visible batches that have
    /// values, ascending. Err is want of memory, and there is none where there are no ranges.
    pub fn batches(&self) -> Result<List<Range>, NoMemory>
        ensures ranges { IfOk result (λ ranges. map bounds_of ranges ≡ ranges_of self.now) }
        ensures just { IfOk result (λ ranges. AreRangesOf self.now (map bounds_of ranges)) }
        ensures sure { ranges_of self.now ≡ [] → IsOk result }
    {
        let mut ranges = List::new(*self.front.met.allocator());
        if self.filter {
            self.front.append_positions(&mut ranges)?;
        } else {
            self.front.append_ranges(&mut ranges)?;
            self.pending.append_ranges(&mut ranges)?;
        }
        Ok(ranges)
    }

    /// The results below the count, in order. Err is want of memory, and drops the store.
    pub fn into_results(self) -> Result<List<V>, NoMemory>
    where
        V: Drop,
        ensures { IfOk result (λ values. IsFirstResults self values) }
    {
        let ResultStore {
            filter: _,
            front,
            pending: _,
            end: _,
        } = self;
        let values = front.into_values()?;
        Ok(List::from_vec(values))
    }

    /// The least index from `begin` to `begin + total` that a batch covers.
    fn first_covered(&self, begin: u32, total: u32) -> Option<u32>
        ensures { result ≡ least_covered self.now.batches begin total }
    {
        if total == 0 || begin >= self.end {
            return None;
        }
        if begin < self.front.place {
            return Some(begin);
        }
        self.pending.first_covered(begin, total)
    }

    /// Why a batch for the indexes from `begin` to `begin + total` would be refused, want of memory apart.
    pub fn refusal(&self, begin: u32, total: u32) -> Option<AddFault>
        ensures { result ≡ refusal_of self.now.batches begin total }
    {
        if let Some(index) = self.first_covered(begin, total) {
            return Some(AddFault::Taken(index));
        }
        if u64::from(begin) + u64::from(total) > u64::from(MOST_END) {
            return Some(AddFault::PastEnd);
        }
        None
    }
}

impl<V: Drop> ResultStore<V> {
    ghost use Rattle.qtc_store.specs.Adding.{AddsBatch};
    ghost use Rattle.qtc_store.specs.Batches.{IsWhole};
    ghost use Rattle.qtc_store.specs.Stored.{batch_with, goes_at, with_batch, KeepsResults, NothingRefuses};

    /// Puts a batch that is not refused in its place. An Err is want of memory, and all of it is taken before
    /// the first change.
    fn put(&mut self, batch: Batch<V>) -> Result<(), AddFault>
        requires free { NothingRefuses self.old batch.begin batch.total }
        requires whole { IsWhole self.old.filter batch }
        ensures ok { OnOk result (self.new ≡ with_batch self.old batch) }
        ensures kept { OnOk result (KeepsResults self.old self.new) }
        ensures memory { IfErr result (λ fault. fault ≡ AddFault.Memory) }
        ensures err { OnErr result (self.new ≡ self.old) }
    {
        if batch.total == 0 {
            return Ok(());
        }
        let end = batch.begin + batch.total;
        if batch.begin == self.front.place {
            let joining = self.pending.meeting_len(end);
            self.front.met.reserve(joining + 1)?;
            self.front.push(batch);
            self.front.join(&mut self.pending);
        } else {
            self.pending.insert(batch)?;
        }
        self.end = self.end.max(end);
        Ok(())
    }

    /// Stores a batch that is not refused, and tells what it did to the count. An Err is want of memory.
    fn accept(&mut self, batch: Batch<V>) -> Result<Added, AddFault>
        requires free { NothingRefuses self.old batch.begin batch.total }
        requires whole { IsWhole self.old.filter batch }
        ensures { AddsBatch self.old batch result self.new }
    {
        let begin = batch.begin;
        let old_count = self.count();
        self.put(batch)?;
        let new_count = self.count();
        Ok(Added {
            begin,
            old_count,
            new_count,
        })
    }

    /// Adds a batch for the indexes from `begin` to `begin + total`. `Taken` comes exactly where one of them
    /// is covered, with the least such index, else `PastEnd` exactly where the batch would end past
    /// `MOST_END`. A batch of total 0 adds nothing. A refused batch is dropped, and the store is as before.
    pub fn add_batch(&mut self, begin: u32, values: List<V>, total: u32) -> Result<Added, AddFault>
        requires few { length values ≤ total }
        requires whole { self.old.filter ≡ false → length values ≡ total }
        ensures { AddsBatch self.old (batch_with begin values total) result self.new }
    {
        if let Some(fault) = self.refusal(begin, total) {
            return Err(fault);
        }
        self.accept(Batch {
            begin,
            values,
            total,
        })
    }

    /// Adds one result at `index`, or at the insert index. The answers are those of `add_batch` for a batch
    /// of one.
    pub fn add(&mut self, index: Option<u32>, value: V) -> Result<Added, AddFault>
        requires { self.old.filter ≡ true → IsSome index }
        ensures { AddsBatch self.old (batch_with (goes_at self.old index) (value ∷ []) 1) result self.new }
    {
        let begin = index.unwrap_or(self.insert_index());
        if let Some(fault) = self.refusal(begin, 1) {
            return Err(fault);
        }
        let values = single(*self.front.met.allocator(), value)?;
        self.accept(Batch {
            begin,
            values,
            total: 1,
        })
    }
}

impl<V: Drop> ResultStore<V> {
    ghost use Rattle.qtc_store.specs.Adds.{accepted_of, offered, store_of, Fits, HasResultsOf, ShowsTaken};

    /// The store after these additions, offered one after the other, the refused ones dropped. So every
    /// query of it answers from the accepted ones. Err is want of memory.
    pub fn from_additions(
        alloc: Global,
        filter: bool,
        additions: Vec<Addition<V>>,
    ) -> Result<ResultStore<V>, NoMemory>
        requires { All (Fits filter) additions.items }
        ensures accepted { IfOk result (λ store. store ≡ store_of filter (accepted_of additions.items)) }

        // In words of the accepted ones as they came: in plain mode their map, in filter mode the taken ones.
        ensures results { filter ≡ false
            → IfOk result (λ store. HasResultsOf store (accepted_of additions.items)) }
        ensures shown { filter ≡ true
            → IfOk result (λ store. ShowsTaken store (accepted_of additions.items)) }
    {
        let mut store = ResultStore::new(alloc, filter);
        for addition in additions {
            store.offer(addition)?;
        }
        Ok(store)
    }

    /// Adds a batch unless it is refused. Err is want of memory, and leaves the store as it was.
    fn offer(&mut self, addition: Addition<V>) -> Result<(), NoMemory>
        requires { Fits self.old.filter addition }
        ensures ok { OnOk result (self.new ≡ offered self.old addition) }
        ensures err { OnErr result (self.new ≡ self.old) }
    {
        let Addition {
            begin,
            values,
            total,
        } = addition;
        let begin = begin.unwrap_or(self.insert_index());
        match self.add_batch(begin, values, total) {
            Ok(_) => Ok(()),
            Err(AddFault::Taken(_)) => Ok(()),
            Err(AddFault::PastEnd) => Ok(()),
            Err(AddFault::Memory) => Err(NoMemory),
        }
    }
}

/// A list of one value.
fn single<V: Drop>(alloc: Global, value: V) -> Result<List<V>, AddFault>
    ensures ok { IfOk result (λ values. values ≡ value ∷ []) }
    ensures memory { IfErr result (λ fault. fault ≡ AddFault.Memory) }
{
    let mut values = List::new(alloc);
    match values.push(value) {
        Ok(()) => Ok(values),
        Err(_value) => Err(AddFault::Memory),
    }
}
