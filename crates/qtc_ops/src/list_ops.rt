ghost use Rattle.std.specs.Prelude.{◌≡◌, List as PlainList, ℕ, [], ◌∷◌, IfOk, take};
ghost use Rattle.std.specs.List.{concat};
ghost use Rattle.qtc_ops.specs.ListOps.{list_value, sorted};

use qtc_base::{Bytes, List, NoMemory};
use std::alloc::Global;

/// What is made of a list of values once a job has ended.
#[derive(Drop)]
pub enum ListOp {
    /// The first values, at most this many.
    First(u32),
    /// The values ascending by bytes, equal ones all kept.
    Sorted,
    /// One value, all values one after the other; one empty value for none.
    Concat,
}

/// The first `count` values, which stay where they are.
fn first_values(values: List<Bytes>, count: u32) -> List<Bytes>
    ensures { result ≡ take count values }
{
    let mut values = values.into_vec();
    values.truncate(count as usize);
    List::from_vec(values)
}

/// The values in order.
fn sorted_values(values: List<Bytes>) -> Result<List<Bytes>, NoMemory>
    ensures { IfOk result (λ list. list ≡ sorted values) }
{
    let mut values = values.into_vec();
    values.sort_by(|a, b| a.as_slice().cmp(&b.as_slice()))?;
    Ok(List::from_vec(values))
}

/// The bytes of all values together, at most as a buffer can have.
fn total_len(values: &[Bytes]) -> usize {
    let mut total = 0usize;
    for value in values {
        total = total.saturating_add(value.len());
    }
    total
}

/// All values as one.
fn joined_values(alloc: Global, values: &[Bytes]) -> Result<List<Bytes>, NoMemory>
    ensures { IfOk result (λ list. list ≡ concat values.now ∷ []) }
{
    let mut whole = Bytes::with_capacity(alloc, total_len(values))?;
    for value in values {
        whole.append(value.as_slice())?;
    }
    let mut list = List::new(alloc);
    match list.push(whole) {
        Ok(()) => Ok(list),
        Err(_) => Err(NoMemory),
    }
}

/// The list that an operation makes of the values. Err is want of memory, and the values are dropped.
pub fn apply_list(alloc: Global, op: &ListOp, values: List<Bytes>) -> Result<List<Bytes>, NoMemory>
    ensures { IfOk result (λ list. list ≡ list_value op.now values) }
{
    match op {
        ListOp::First(count) => Ok(first_values(values, *count)),
        ListOp::Sorted => sorted_values(values),
        ListOp::Concat => joined_values(alloc, values.as_slice()),
    }
}
