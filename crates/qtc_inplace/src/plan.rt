//! Where the chunks of a list are cut into runs.
ghost use Rattle.std.specs.Prelude.{◌*◌, ◌^◌, ◌<◌, ◌≤◌};
ghost use Rattle.qtc_inplace.specs.Conditions.{most_functions};
ghost use Rattle.qtc_inplace.specs.Inside.{IsCut};

/// The end of the run of the first `part` of `all` functions, which share the chunks of `size` members out as evenly
/// as whole chunks allow.
pub(crate) fn run_end(len: usize, size: usize, part: usize, all: usize) -> usize
    requires sizes { (0 < size) × (len < 2 ^ 32) }
    requires parts { (part < all) × (all ≤ most_functions) }
    ensures { IsCut size len result }
{
    let chunks = len.div_ceil(size);
    chunks * part / all * size
}

/// The beginning of a chunk in the middle of a list of more than one.
pub(crate) fn middle(len: usize, size: usize) -> usize
    requires { (0 < size) × (size < len) × (len < 2 ^ 32) }
    ensures cut { IsCut size len result }
    ensures inside { (0 < result) × (result < len) }
{
    let chunks = len.div_ceil(size);
    chunks / 2 * size
}
