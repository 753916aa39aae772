//! Which of the stored blocks comes next.
ghost use Rattle.std.specs.Prelude.{◌≡◌, ◌<◌, ◌≤◌, [], true, false, length, All, HoldsAt, MatchOption};
ghost use Rattle.qtc_reduce.specs.Blocks.{IsNextAt, begin_of, may_be_next};

use crate::Block;

/// The place of the block that comes next: in order the one that begins at the progress, else the one of least begin.
pub(crate) fn next_place(stored: &[Block], ordered: bool, progress: u32) -> Option<usize>
    ensures { MatchOption result
        (All (λ block. may_be_next ordered progress block ≡ false) stored.now)
        (IsNextAt ordered progress stored.now) }
{
    if ordered {
        place_at(stored, progress)
    } else {
        place_of_least(stored)
    }
}

/// The place of the first block that begins there.
fn place_at(stored: &[Block], begin: u32) -> Option<usize>
    ensures { MatchOption result
        (All (λ block. may_be_next true begin block ≡ false) stored.now)
        (IsNextAt true begin stored.now) }
{
    stored.iter().position(|block| block.range.begin == begin)
}

/// The place of a block of least begin.
fn place_of_least(stored: &[Block]) -> Option<usize>
    ensures { MatchOption result (stored.now ≡ []) (λ place. (place < length stored.now)
        × HoldsAt (λ block. All (λ other. begin_of block ≤ begin_of other) stored.now) stored.now place) }
{
    let mut least = 0;
    for (place, block) in stored.iter().enumerate() {
        if block.range.begin < stored[least].range.begin {
            least = place;
        }
    }
    if stored.is_empty() { None } else { Some(least) }
}
