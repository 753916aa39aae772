ghost use Rattle.std.specs.Prelude.{◌≡◌, ◌↔◌, IsTrue};

use crate::wildcards::matches_pattern;
use memchr::memmem;
use qtc_base::Bytes;

/// Which items a job keeps.
#[derive(Drop)]
pub enum Pred {
    /// The text stands in the item.
    Contains(Bytes),
    /// The pattern matches the whole item: `*` stands for any run of bytes, the empty one too, `?` for any one
    /// byte, and every other byte for itself.
    Wildcard(Bytes),
    /// The item has more bytes than this.
    Longer(u32),
}

impl Pred {
    ghost use Rattle.qtc_ops.specs.Predicates.{keeps, Keeps};

    /// Whether it keeps the item. `Contains` searches by Two-Way and a vector prefilter; `Wildcard` takes at most
    /// one more than the item's length times one more than the pattern's steps, and mostly as many as the item
    /// has bytes.
    pub fn keeps(&self, item: &[u8]) -> bool
        ensures test { result ≡ keeps self.now item.now }
        ensures exactly { IsTrue result ↔ Keeps self.now item.now }
    {
        match self {
            Pred::Contains(literal) => memmem::find(item, literal.as_slice()).is_some(),
            Pred::Wildcard(pattern) => matches_pattern(pattern.as_slice(), item),
            Pred::Longer(bound) => item.len() > *bound as usize,
        }
    }
}
