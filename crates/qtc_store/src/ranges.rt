//! Ranges that a store tells.

ghost use Rattle.std.specs.Prelude.{◌+◌, ◌≤◌, ◌≡◌, [], ◌∷◌, IsOk, OnOk};
ghost use Rattle.qtc_base.specs.Limits.{most_end};
ghost use Rattle.qtc_store.specs.Inside.{Appends};
ghost use Rattle.qtc_store.specs.Visible.{positions};

use qtc_base::{List, NoMemory, Range};

/// Appends a range. Err is want of memory.
pub(crate) fn append_range(begin: u32, end: u32, ranges: &mut List<Range>) -> Result<(), NoMemory>
    requires { begin ≤ end }
    ensures { OnOk result (Appends ranges.old ranges.new ((begin, end) ∷ [])) }
{
    match ranges.push(Range { begin, end }) {
        Ok(()) => Ok(()),
        Err(_range) => Err(NoMemory),
    }
}

/// Appends the positions of `count` values, where there are any. Err is want of memory.
pub(crate) fn append_positions(
    position: u32,
    count: u32,
    ranges: &mut List<Range>,
) -> Result<(), NoMemory>
    requires { position + count ≤ most_end }
    ensures ok { OnOk result (Appends ranges.old ranges.new (positions position count)) }
    ensures sure { positions position count ≡ [] → IsOk result }
{
    if count == 0 {
        return Ok(());
    }
    append_range(position, position + count, ranges)
}
