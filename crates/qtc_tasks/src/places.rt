//! The places of jobs that are done at once.
ghost use Rattle.std.specs.Prelude.{◌≡◌, ◌≤◌, ◌<◌, ◌+◌, ◌++◌, [], IfOk, map, option_to_list, vec_capacity, vec_len};
ghost use Rattle.qtc_tasks.specs.Places.{ends_in, waiting};

use crate::{TaskEnd, TaskJob};
use qtc_base::NoMemory;
use std::alloc::Global;

/// Where a job waits, and where it leaves how it ended.
#[derive(Drop)]
pub(crate) struct Place<V, T> {
    pub(crate) job: Option<TaskJob<V, T>>,
    pub(crate) end: Option<TaskEnd<V, T>>,
}

/// A place for each job, in order. Err is want of memory, and drops the jobs.
pub(crate) fn places_of<V: Drop, T: Drop>(
    alloc: Global,
    jobs: Vec<TaskJob<V, T>>,
) -> Result<Vec<Place<V, T>>, NoMemory>
    ensures { IfOk result (λ places. places.items ≡ map waiting jobs.items) }
{
    let mut places = Vec::with_capacity(alloc, jobs.len())?;
    for job in jobs {
        places.push(Place {
            job: Some(job),
            end: None,
        })?;
    }
    Ok(places)
}

// Appends a job's end, where there is one, to the list that has room for it.
fn keep_end<V: Drop, T: Drop>(end: Option<TaskEnd<V, T>>, ends: &mut Vec<TaskEnd<V, T>>)
    requires { vec_len ends.old < vec_capacity ends.old }
    ensures items { ends.new.items ≡ ends.old.items ++ option_to_list end }
    ensures len { vec_len ends.new ≤ vec_len ends.old + 1 }
    ensures room { vec_capacity ends.old ≤ vec_capacity ends.new }
{
    if let Some(end) = end {
        let Ok(()) = ends.push(end) else {
            unreachable!()
        };
    }
}

/// How the jobs ended, in order, in the list that has room for these.
pub(crate) fn ends_of<V: Drop, T: Drop>(
    places: Vec<Place<V, T>>,
    mut ends: Vec<TaskEnd<V, T>>,
) -> Vec<TaskEnd<V, T>>
    requires none { ends.items ≡ [] }
    requires room { vec_len places ≤ vec_capacity ends }
    ensures { result.items ≡ ends_in places.items }
{
    for place in places {
        let Place { job: _job, end } = place;
        keep_end(end, &mut ends);
    }
    ends
}
