//! A task that gives the values of a list.
ghost use Rattle.std.specs.Prelude.{◌≡◌};
ghost use Rattle.qtc_tasks.specs.Tasks.{Gives};

use crate::{Task, TaskFault};
use qtc_base::{Bytes, List};
use std::marker::Model;

/// A task that gives the values of a list, in order, and then fails with a text, where it has one.
#[derive(Drop)]
pub struct ListTask<V> {
    // The last of them is the next.
    values: Vec<V>,
    bad: Option<Bytes>,
}

impl<V> Model for ListTask<V> {
    ghost use Rattle.std.specs.Prelude.{reverse};
    ghost use Rattle.qtc_tasks.specs.Tasks.{TaskState};

    ghost Value = { TaskState V };

    ghost view = { λ a. record { left = reverse a.values.items; bad = a.bad } };
}

impl<V> ListTask<V> {
    /// The task of these values, with a failure after them or none. It takes no memory.
    pub fn new(values: List<V>, bad: Option<Bytes>) -> ListTask<V>
        ensures { result ≡ record { left = values; bad = bad } }
    {
        let mut values = values.into_vec();
        values.as_mut_slice().reverse();
        ListTask { values, bad }
    }
}

impl<V: Send> Task<V> for ListTask<V> {
    ghost state = { λ task. task };

    fn next(&mut self) -> Result<Option<V>, TaskFault> {
        if let Some(value) = self.values.pop() {
            return Ok(Some(value));
        }
        match self.bad.take() {
            Some(text) => Err(TaskFault::Bad(text)),
            None => Ok(None),
        }
    }
}
