//! The plain program of the definitions: one list of batches that each query walks.
use qtc_store::{AddFault, Added, MOST_END};
use std::alloc::{AllocError, Global};

/// A batch: where it begins, how many indexes it covers, and its values.
#[derive(Drop)]
struct Plain<'a> {
    begin: u32,
    total: u32,
    values: &'a [u8],
}

impl Plain<'_> {
    fn end(&self) -> u32 {
        self.begin.saturating_add(self.total)
    }

    fn len(&self) -> u32 {
        u32::try_from(self.values.len()).unwrap_or(u32::MAX)
    }
}

/// Results by index, as batches in order of their begins.
#[derive(Drop)]
pub(super) struct PlainStore<'a> {
    filter: bool,
    batches: Vec<Plain<'a>>,
}

impl<'a> PlainStore<'a> {
    pub(super) fn new(alloc: Global, filter: bool) -> PlainStore<'a> {
        PlainStore {
            filter,
            batches: Vec::new(alloc),
        }
    }

    pub(super) fn get(&self, index: u32) -> Option<u8> {
        if self.filter {
            self.at_position(index as usize)
        } else {
            self.at_index(index)
        }
    }

    fn at_index(&self, index: u32) -> Option<u8> {
        for batch in &self.batches {
            if batch.begin <= index && index < batch.end() {
                return batch.values.get((index - batch.begin) as usize).copied();
            }
        }
        None
    }

    fn at_position(&self, position: usize) -> Option<u8> {
        let mut rest = position;
        let mut place = 0;
        for batch in &self.batches {
            if batch.begin != place {
                return None;
            }
            if let Some(value) = batch.values.get(rest) {
                return Some(*value);
            }
            rest = rest.saturating_sub(batch.values.len());
            place = batch.end();
        }
        None
    }

    pub(super) fn count(&self) -> u32 {
        let mut place = 0;
        let mut visible = 0u32;
        for batch in &self.batches {
            if batch.begin == place {
                visible = visible.wrapping_add(batch.len());
                place = batch.end();
            }
        }
        if self.filter { visible } else { place }
    }

    pub(super) fn insert_index(&self) -> u32 {
        let mut end = 0;
        for batch in &self.batches {
            end = batch.end().max(end);
        }
        end
    }

    /// The ranges that the store tells.
    pub(super) fn ranges(&self, alloc: Global) -> Result<Vec<(u32, u32)>, AllocError> {
        let mut ranges = Vec::new(alloc);
        let mut place = 0;
        let mut position = 0u32;
        for batch in &self.batches {
            if !self.filter {
                ranges.push((batch.begin, batch.end()))?;
            } else if batch.begin == place {
                let end = position.wrapping_add(batch.len());
                if end > position {
                    ranges.push((position, end))?;
                }
                position = end;
                place = batch.end();
            }
        }
        Ok(ranges)
    }

    fn taken(&self, begin: u32, end: u32) -> Option<u32> {
        for batch in &self.batches {
            let first = batch.begin.max(begin);
            if first < batch.end().min(end) {
                return Some(first);
            }
        }
        None
    }

    pub(super) fn add(
        &mut self,
        begin: u32,
        values: &'a [u8],
        total: u32,
    ) -> Result<Added, AddFault> {
        let end = begin.saturating_add(total);
        if let Some(index) = self.taken(begin, end) {
            return Err(AddFault::Taken(index));
        }
        if end > MOST_END {
            return Err(AddFault::PastEnd);
        }
        let old_count = self.count();
        if total > 0 {
            let place = self.batches.partition_point(|batch| batch.begin < begin);
            let batch = Plain {
                begin,
                total,
                values,
            };
            self.batches.insert(place, batch)?;
        }
        Ok(Added {
            begin,
            old_count,
            new_count: self.count(),
        })
    }
}
