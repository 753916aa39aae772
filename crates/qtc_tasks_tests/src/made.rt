// What the tests make and look at: futures, lists, and how a job ended.
ghost use Rattle.std.specs.Prelude.{◌≡◌, ◌<◌, ◌∷◌, [], false, length, IfOk};

use qtc_base::{List, NoMemory};
use qtc_events::{Call, Event};
use qtc_future::{FutureCore, Outcome};
use qtc_shared::{Pass, SharedFuture};
use qtc_tasks::TaskStop;
use std::alloc::Global;
use std::sync::Wait;

// By what a job stopped.
#[derive(Clone, Copy, Debug, PartialEq, Eq)]
pub enum Stop {
    Whole,
    Failed,
    Canceled,
    Refused,
    Memory,
    NotRun,
}

pub fn stop_of<T>(stop: &TaskStop<T>) -> Stop {
    match stop {
        TaskStop::Whole => Stop::Whole,
        TaskStop::Failed => Stop::Failed,
        TaskStop::Canceled => Stop::Canceled,
        TaskStop::Refused => Stop::Refused,
        TaskStop::Memory => Stop::Memory,
        TaskStop::NotRun(_task) => Stop::NotRun,
    }
}

// A new future in plain mode for one maker, and its pass.
pub fn plain(alloc: Global) -> Result<(SharedFuture<u32>, Pass<u32>), NoMemory>
    ensures of { IfOk result (λ made. made.1.of ≡ made.0) }
    ensures maker { IfOk result (λ made. made.1.number < made.0.terms.makers) }
    ensures mode { IfOk result (λ made. made.0.terms.filter ≡ false) }
{
    SharedFuture::new(alloc, false, 0, 0, 1)
}

// Another pass of the future. Err is that there is none left.
pub fn another<R: Wait>(
    rt: &R,
    future: &SharedFuture<u32>,
    pass: &mut Pass<u32>,
) -> Result<Pass<u32>, NoMemory>
    requires { pass.old.of ≡ future.now }
    ensures of { pass.new.of ≡ pass.old.of }
    ensures number { pass.new.number ≡ pass.old.number }
    ensures made { IfOk result (λ made. made.of ≡ future.now) }
{
    match future.new_pass(rt, pass) {
        Some(made) => Ok(made),
        None => Err(NoMemory),
    }
}

pub fn listed(alloc: Global, values: &[u32]) -> Result<List<u32>, NoMemory> {
    Ok(List::from_vec(values.to_vec(alloc)?))
}

// So many zeros.
pub fn zeros(alloc: Global, count: u32) -> Result<List<u32>, NoMemory>
    ensures { IfOk result (λ list. length list ≡ count) }
{
    Ok(List::from_vec(vec![in alloc; 0u32; count as usize]?))
}

// The list of one member.
pub fn one<T: Drop>(alloc: Global, member: T) -> Result<List<T>, NoMemory>
    ensures { IfOk result (λ list. list ≡ member ∷ []) }
{
    let mut list = Vec::new(alloc);
    list.push(member)?;
    Ok(List::from_vec(list))
}

// Whether the journal has just these calls, each with its caller's number.
pub fn has_calls(core: &FutureCore<u32>, want: &[(u32, Call)]) -> bool {
    let journal = core.journal();
    journal.len() == want.len()
        && journal.iter().zip(want).all(|(entry, (caller, call))| entry.caller == *caller
            && entry.call == *call)
}

// Whether just these events were told.
pub fn has_events(core: &FutureCore<u32>, want: &[Event]) -> bool {
    core.events() == want
}

// Whether the outcome is these values.
pub fn are_values(outcome: &Outcome<u32>, want: &[u32]) -> bool {
    match outcome {
        Outcome::Values(values) => values.as_slice() == want,
        _ => false,
    }
}

// Whether the outcome is a failure at this index of this text.
pub fn is_failure(outcome: &Outcome<u32>, index: u32, item: &[u8]) -> bool {
    match outcome {
        Outcome::Failed(failure) => failure.index == index && failure.item.as_slice() == item,
        _ => false,
    }
}
