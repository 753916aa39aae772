ghost use Rattle.std.specs.Prelude.{◌≡◌};

use qtc_base::{List, NoMemory};
use std::alloc::Global;
use std::marker::Model;

/// What an arrival is answered where all are waited for.
#[derive(Debug, Drop, PartialEq, Eq)]
pub enum AllArrive<T> {
    /// Others are still missing.
    Waiting,
    /// It was the last that was missing.
    Last,
    /// The index arrived before: the value comes back.
    Again(T),
}

/// What several futures came to, by their indexes, for one thread, until all have arrived. (After QtFuture's `whenAll`; own.)
#[derive(Drop)]
pub struct AllState<T> {
    values: Vec<Option<T>>,
    missing: usize,
}

impl<T> Model for AllState<T> {
    ghost use Rattle.std.specs.Prelude.{◌≡◌, List as PlainList, Option, is_none};
    ghost use Rattle.std.specs.List.{count_by};

    ghost Value = { PlainList (Option T) };

    ghost view = { λ s. s.values.items };

    ghost invariant = { λ s. s.missing ≡ count_by is_none s.values.items };
}

impl<T> AllState<T> {
    ghost use Rattle.std.specs.Prelude.{◌≡◌, ◌<◌, ◌≤◌, ◌↔◌, None, IfOk, IsTrue, length, replicate};
    ghost use Rattle.qtc_chain.specs.Limits.{most_futures};
    ghost use Rattle.qtc_chain.specs.Arrivals.{HaveAllArrived, IsArrived};

    /// Waits for so many futures, at most 65,536, none of which has arrived. Err is want of memory.
    pub fn new(alloc: Global, n: u32) -> Result<AllState<T>, NoMemory>
        requires { n ≤ most_futures }
        ensures { IfOk result (λ state. state ≡ replicate n None) }
    {
        let mut values = Vec::with_capacity(alloc, n as usize)?;
        for _ in 0..n {
            values.push_reserved(None);
        }
        Ok(AllState {
            values,
            missing: n as usize,
        })
    }

    /// Takes the value of the future with this index.
    pub fn arrive(&mut self, index: u32, value: T) -> AllArrive<T>
        requires { index < length self.old }
        ensures { IsArrived index value self.old self.new result }
    {
        let slot = &mut self.values[index as usize];
        if slot.is_some() {
            return AllArrive::Again(value);
        }
        let before = slot.replace(value);
        let None = before else { unreachable!() };
        self.missing -= 1;
        if self.missing == 0 {
            AllArrive::Last
        } else {
            AllArrive::Waiting
        }
    }

    /// Whether all have arrived; where no future is waited for, they have from the first.
    pub fn is_finished(&self) -> bool
        ensures { IsTrue result ↔ HaveAllArrived self.now }
    {
        self.missing == 0
    }

    /// The values by their indexes, with none where an index has not arrived.
    pub fn close(self) -> List<Option<T>>
        ensures { result ≡ self }
    {
        List::from_vec(self.values)
    }
}
