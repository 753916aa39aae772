//! The batches that meet from index 0 on.

ghost use Rattle.std.specs.Prelude.{◌≡◌, ◌+◌, ◌≤◌, [], ◌∷◌, ◌++◌, length, option_copied, slice_get, All, IsOk, OnOk, IfOk};
ghost use Rattle.std.specs.List.{flat_map};
ghost use Rattle.std.specs.Vec.{vec_len, vec_capacity};
ghost use Rattle.qtc_store.specs.Batches.{greatest_end, values_of};
ghost use Rattle.qtc_base.specs.Limits.{most_end};
ghost use Rattle.qtc_store.specs.Inside.{met_in, waiting_in, Appends, HasRoom, IsFront, IsKeyed};
ghost use Rattle.qtc_store.specs.Results.{result_ranges};
ghost use Rattle.qtc_store.specs.Visible.{meeting, position_ranges};

use crate::Batch;
use crate::pending::Pending;
use crate::ranges::{append_positions, append_range};
use qtc_base::{List, NoMemory, Range};
use std::alloc::Global;

/// A batch that has no gap before it, with the position of its first value.
#[derive(Drop)]
pub(crate) struct Met<V> {
    first: u32,
    batch: Batch<V>,
}

/// The batches that meet from index 0 on, in order: where they end, and how many values they have. It only
/// grows at its end, so that a vector serves, and a search by position finds a value.
#[derive(Drop)]
pub(crate) struct Front<V> {
    pub(crate) met: Vec<Met<V>>,
    pub(crate) place: u32,
    pub(crate) count: u32,
}

impl<V> Front<V> {
    pub(crate) fn new(alloc: Global) -> Front<V>
        ensures laid { IsFront result }
        ensures empty { met_in result ≡ [] }
    {
        Front {
            met: Vec::new(alloc),
            place: 0,
            count: 0,
        }
    }

    /// The value at a position.
    pub(crate) fn get(&self, position: u32) -> Option<&V>
        requires { IsFront self.now }
        ensures { option_copied result ≡ slice_get (flat_map values_of (met_in self.now)) position }
    {
        let after = self.met.partition_point(|met| met.first <= position);
        if after == 0 {
            return None;
        }
        let met = &self.met[after - 1];
        met.batch
            .values
            .as_slice()
            .get((position - met.first) as usize)
    }

    /// Appends a batch that begins at the place, where there is room for it.
    pub(crate) fn push(&mut self, batch: Batch<V>)
        requires laid { IsFront self.old }
        requires room { HasRoom self.old 1 }
        requires meets { batch.begin ≡ self.old.place }
        requires few { length batch.values ≤ batch.total }
        requires bounded { batch.begin + batch.total ≤ most_end }
        ensures laid { IsFront self.new }
        ensures met { met_in self.new ≡ met_in self.old ++ batch ∷ [] }
        ensures place { self.new.place ≡ batch.begin + batch.total }
        ensures len { vec_len self.new.met ≡ vec_len self.old.met + 1 }
        ensures capacity { vec_capacity self.old.met ≤ vec_capacity self.new.met }
    {
        let first = self.count;
        self.place = batch.begin + batch.total;
        self.count = first + batch.values.as_slice().len() as u32;
        self.met.push(Met { first, batch }).unwrap();
    }

    /// Takes over the pending batches that meet the end, where there is room for them.
    pub(crate) fn join(&mut self, pending: &mut Pending<V>)
        requires laid { IsFront self.old }
        requires keyed { IsKeyed pending.old }
        requires room { HasRoom self.old (length (meeting self.old.place (waiting_in pending.old))) }
        requires few { All (λ batch. length batch.values ≤ batch.total) (waiting_in pending.old) }
        requires bounded { greatest_end (waiting_in pending.old) ≤ most_end }
        ensures laid { IsFront self.new }
        ensures keyed { IsKeyed pending.new }
        ensures all { met_in self.new ++ waiting_in pending.new ≡ met_in self.old ++ waiting_in pending.old }
        ensures gap { meeting self.new.place (waiting_in pending.new) ≡ [] }
    {
        while let Some(batch) = pending.take_at(self.place) {
            self.push(batch);
        }
    }

    /// Appends the ranges that the batches cover. Err is want of memory.
    pub(crate) fn append_ranges(&self, ranges: &mut List<Range>) -> Result<(), NoMemory>
        requires { IsFront self.now }
        ensures ok { OnOk result (Appends ranges.old ranges.new (result_ranges (met_in self.now))) }
        ensures sure { met_in self.now ≡ [] → IsOk result }
    {
        for met in &self.met {
            let begin = met.batch.begin;
            append_range(begin, begin + met.batch.total, ranges)?;
        }
        Ok(())
    }

    /// Appends the positions of each batch that has values. Err is want of memory.
    pub(crate) fn append_positions(&self, ranges: &mut List<Range>) -> Result<(), NoMemory>
        requires { IsFront self.now }
        ensures ok { OnOk result (Appends ranges.old ranges.new (position_ranges 0 (met_in self.now))) }
        ensures sure { position_ranges 0 (met_in self.now) ≡ [] → IsOk result }
    {
        for met in &self.met {
            let count = met.batch.values.as_slice().len() as u32;
            append_positions(met.first, count, ranges)?;
        }
        Ok(())
    }

    /// All values, in order. Err is want of memory.
    pub(crate) fn into_values(self) -> Result<Vec<V>, NoMemory>
    where
        V: Drop,
        ensures { IfOk result (λ values. values.items ≡ flat_map values_of (met_in self)) }
    {
        let Front {
            met,
            place: _,
            count,
        } = self;
        let mut all = Vec::new(*met.allocator());
        all.reserve(count as usize)?;
        for Met { first: _, batch } in met {
            all.append(&mut batch.values.into_vec())?;
        }
        Ok(all)
    }
}
