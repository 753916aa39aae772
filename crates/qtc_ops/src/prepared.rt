ghost use Rattle.std.specs.Prelude.{◌≡◌};
ghost use Rattle.qtc_ops.specs.ItemValue.{Answers};
ghost use Rattle.qtc_ops.specs.Operations.{kept_where, value_of};
ghost use Rattle.qtc_ops.specs.Prepared.{op_of};

use crate::literals::LiteralSearch;
use crate::maps::apply_map;
use crate::{ItemFault, ItemOp, MapOp, Pred};
use qtc_base::Bytes;
use std::alloc::Global;

/// An operation that is ready for many items: the search for a literal is made once for all of them.
#[derive(Drop)]
pub enum Prepared {
    /// As `ItemOp::Map`.
    Map(MapOp),
    /// As `ItemOp::Keep` of `Pred::Contains`.
    Search { not: bool, search: LiteralSearch },
    /// As `ItemOp::Keep` of another predicate.
    Keep { not: bool, pred: Pred },
}

/// The item as its own value where it is kept.
fn kept_item(alloc: Global, keep: bool, item: &[u8]) -> Result<Option<Bytes>, ItemFault>
    ensures { Answers (kept_where keep item.now) result }
{
    if keep {
        Ok(Some(Bytes::from_slice(alloc, item)?))
    } else {
        Ok(None)
    }
}

impl Prepared {
    /// Makes an operation ready. The search owns the literal's own bytes.
    pub fn new(op: ItemOp) -> Prepared
        ensures { op_of result ≡ op }
    {
        match op {
            ItemOp::Map(map) => Prepared::Map(map),
            ItemOp::Keep {
                not,
                pred: Pred::Contains(literal),
            } => Prepared::Search {
                not,
                search: LiteralSearch::new(literal),
            },
            ItemOp::Keep { not, pred } => Prepared::Keep { not, pred },
        }
    }

    /// The value of an item.
    pub fn apply(&self, alloc: Global, item: &[u8]) -> Result<Option<Bytes>, ItemFault>
        ensures { Answers (value_of (op_of self.now) item.now) result }
    {
        match self {
            Prepared::Map(map) => apply_map(alloc, *map, item),
            Prepared::Search { not, search } => kept_item(alloc, search.is_in(item) != *not, item),
            Prepared::Keep { not, pred } => kept_item(alloc, pred.keeps(item) != *not, item),
        }
    }
}
