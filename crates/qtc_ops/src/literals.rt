ghost use Rattle.std.specs.Prelude.{◌≡◌, ◌≤◌, length, take};
ghost use Rattle.qtc_ops.specs.Predicates.{keeps};
ghost use Rattle.qtc_ops.specs.declared.predicates.Pred.TheVariants.{Contains};

use memchr::memmem::{Finder, FinderBuilder};
use qtc_base::Bytes;
use std::marker::Model;

/// How many places the kit's search tests at once. Fewer it tests one by one, which takes longer than all of these.
const PLACES: usize = 32;

/// The most bytes that are searched in place of a short item.
const PADDED: usize = 64;

/// The item with zeros after it.
fn padded(item: &[u8]) -> [u8; PADDED]
    requires { length item.now ≤ PADDED }
    ensures { take (length item.now) result ≡ item.now }
{
    let mut bytes = [0; PADDED];
    bytes[..item.len()].copy_from_slice(item);
    bytes
}

/// A search for a literal that is made ready once, for many items. Contracts see the literal.
#[derive(Drop)]
pub struct LiteralSearch {
    finder: Finder<'static>,
}

impl Model for LiteralSearch {
    ghost use Rattle.std.specs.Prelude.{List, ℕ};

    ghost Value = { List ℕ };

    ghost view = { λ s. s.finder };
}

impl LiteralSearch {
    /// A search for the literal, whose bytes stay where they are.
    pub fn new(literal: Bytes) -> LiteralSearch
        ensures { result ≡ literal }
    {
        LiteralSearch {
            finder: FinderBuilder::new().build_forward_owned(literal.into_vec()),
        }
    }

    /// Whether the literal stands in the item at some place. A short item is searched with zeros after it, and what
    /// is found then counts where it ends within the item.
    pub fn is_in(&self, item: &[u8]) -> bool
        ensures { result ≡ keeps (Contains self.now) item.now }
    {
        let len = self.finder.needle().len();
        let room = len + PLACES - 1;
        if item.len() >= room || room > PADDED {
            return self.finder.find(item).is_some();
        }
        match self.finder.find(&padded(item)[..room]) {
            Some(place) => place + len <= item.len(),
            None => false,
        }
    }
}
