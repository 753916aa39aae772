//! The batches behind a gap.

ghost use Rattle.std.specs.Prelude.{◌≡◌, ◌+◌, ◌^◌, ◌<◌, ◌≤◌, [], ◌∷◌, ◌++◌, length, map, option_copied, slice_get, filter, nat_le, nat_lt, All, IsOk, OnOk, OnErr, IfErr, MatchOption};
ghost use Rattle.std.specs.List.{last_or};
ghost use Rattle.std.specs.Ordering.{nat_cmp};
ghost use Rattle.std.specs.FinMap.{get};
ghost use Rattle.qtc_store.specs.Batches.{AreApart, greatest_end, is_covered, least_covered, placed};
ghost use Rattle.qtc_base.specs.Limits.{most_end};
ghost use Rattle.qtc_store.specs.Inside.{after, up_to, waiting_in, Appends, IsKeyed};
ghost use Rattle.qtc_store.specs.Results.{results, result_ranges};
ghost use Rattle.qtc_store.specs.Visible.{meeting};

use crate::ranges::append_range;
use crate::{AddFault, Batch};
use qtc_base::{List, NoMemory, Range};
use std::alloc::Global;
use std::collections::BTreeMap;

/// The batches behind a gap, each at its begin.
#[derive(Drop)]
pub(crate) struct Pending<V> {
    batches: BTreeMap<u32, Batch<V>>,
}

impl<V> Pending<V> {
    pub(crate) fn new(alloc: Global) -> Pending<V>
        ensures keyed { IsKeyed result }
        ensures empty { waiting_in result ≡ [] }
    {
        Pending {
            batches: BTreeMap::new(alloc),
        }
    }

    /// The last batch that begins at the index or below it.
    fn last_up_to(&self, index: u32) -> Option<&Batch<V>>
        requires { IsKeyed self.now }
        ensures { option_copied result ≡ last_or None (up_to index (waiting_in self.now)) }
    {
        match self.batches.range(..=index).next_back() {
            Some((_, batch)) => Some(batch),
            None => None,
        }
    }

    /// The first batch that begins after the index.
    fn first_after(&self, index: u32) -> Option<&Batch<V>>
        requires keyed { IsKeyed self.now }
        requires below { index < most_end }
        ensures { option_copied result ≡ slice_get (after index (waiting_in self.now)) 0 }
    {
        match self.batches.range(index + 1..).next() {
            Some((_, batch)) => Some(batch),
            None => None,
        }
    }

    /// The value of the batch that covers the index.
    pub(crate) fn get(&self, index: u32) -> Option<&V>
        requires keyed { IsKeyed self.now }
        requires apart { AreApart 0 (waiting_in self.now) }
        requires few { All (λ batch. length batch.values ≤ batch.total) (waiting_in self.now) }
        ensures { option_copied result ≡ get (results (waiting_in self.now)) index }
    {
        match self.last_up_to(index) {
            Some(batch) => batch.values.as_slice().get((index - batch.begin) as usize),
            None => None,
        }
    }

    /// Whether a batch covers the index.
    fn covers(&self, index: u32) -> bool
        requires keyed { IsKeyed self.now }
        requires apart { AreApart 0 (waiting_in self.now) }
        requires bounded { greatest_end (waiting_in self.now) ≤ most_end }
        ensures { result ≡ is_covered (waiting_in self.now) index }
    {
        match self.last_up_to(index) {
            Some(batch) => index < batch.begin + batch.total,
            None => false,
        }
    }

    /// The least index from `begin` to `begin + total` that one of the batches covers.
    pub(crate) fn first_covered(&self, begin: u32, total: u32) -> Option<u32>
        requires keyed { IsKeyed self.now }
        requires apart { AreApart 0 (waiting_in self.now) }
        requires bounded { greatest_end (waiting_in self.now) ≤ most_end }
        requires some { 0 < total }
        requires below { begin < most_end }
        ensures { result ≡ least_covered (waiting_in self.now) begin total }
    {
        if self.covers(begin) {
            return Some(begin);
        }
        let end = u64::from(begin) + u64::from(total);
        match self.first_after(begin) {
            Some(batch) if u64::from(batch.begin) < end => Some(batch.begin),
            _ => None,
        }
    }

    /// How many of the first batches meet from the place on.
    pub(crate) fn meeting_len(&self, place: u32) -> usize
        requires { greatest_end (waiting_in self.now) ≤ most_end }
        ensures len { result ≡ length (meeting place (waiting_in self.now)) }
        ensures small { result < 2 ^ 63 }
    {
        let mut end = place;
        let mut len = 0;
        for (_, batch) in &self.batches {
            if batch.begin != end {
                return len;
            }
            end = batch.begin + batch.total;
            len += 1;
        }
        len
    }

    /// Takes the first batch out, if it begins at the place.
    pub(crate) fn take_at(&mut self, place: u32) -> Option<Batch<V>>
        requires { IsKeyed self.old }
        ensures keyed { IsKeyed self.new }
        ensures taken { MatchOption result (waiting_in self.new ≡ waiting_in self.old)
            (λ batch. waiting_in self.old ≡ batch ∷ waiting_in self.new) }
        ensures at { MatchOption result (meeting place (waiting_in self.old) ≡ []) (λ batch. batch.begin ≡ place) }
    {
        let (begin, _) = self.batches.first_key_value()?;
        if *begin != place {
            return None;
        }
        let (_, batch) = self.batches.pop_first()?;
        Some(batch)
    }

    /// Appends the ranges that the batches cover. Err is want of memory.
    pub(crate) fn append_ranges(&self, ranges: &mut List<Range>) -> Result<(), NoMemory>
        requires { greatest_end (waiting_in self.now) ≤ most_end }
        ensures ok { OnOk result (Appends ranges.old ranges.new (result_ranges (waiting_in self.now))) }
        ensures sure { waiting_in self.now ≡ [] → IsOk result }
    {
        for (_, batch) in &self.batches {
            append_range(batch.begin, batch.begin + batch.total, ranges)?;
        }
        Ok(())
    }
}

impl<V: Drop> Pending<V> {
    /// Puts in a batch that lies apart from the others. An Err is want of memory.
    pub(crate) fn insert(&mut self, batch: Batch<V>) -> Result<(), AddFault>
        requires keyed { IsKeyed self.old }
        requires apart { AreApart 0 (placed (waiting_in self.old) batch) }
        ensures keyed { IsKeyed self.new }
        ensures ok { OnOk result (waiting_in self.new ≡ placed (waiting_in self.old) batch) }
        ensures memory { IfErr result (λ fault. fault ≡ AddFault.Memory) }
        ensures err { OnErr result (waiting_in self.new ≡ waiting_in self.old) }
    {
        self.batches.insert(batch.begin, batch)?;
        Ok(())
    }
}
