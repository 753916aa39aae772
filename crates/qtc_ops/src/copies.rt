use crate::{FoldOp, ItemOp, ListOp, Pred};
use qtc_base::{NoMemory, Value};

impl Value for Pred {
    fn copy(&self) -> Result<Pred, NoMemory> {
        match self {
            Pred::Contains(literal) => Ok(Pred::Contains(literal.copy()?)),
            Pred::Wildcard(pattern) => Ok(Pred::Wildcard(pattern.copy()?)),
            Pred::Longer(bound) => Ok(Pred::Longer(*bound)),
        }
    }
}

impl Value for ItemOp {
    fn copy(&self) -> Result<ItemOp, NoMemory> {
        match self {
            ItemOp::Map(op) => Ok(ItemOp::Map(*op)),
            ItemOp::Keep { not, pred } => {
                let pred = pred.copy()?;
                Ok(ItemOp::Keep { not: *not, pred })
            }
        }
    }
}

impl Value for FoldOp {
    fn copy(&self) -> Result<FoldOp, NoMemory> {
        match self {
            FoldOp::Count => Ok(FoldOp::Count),
            FoldOp::Size => Ok(FoldOp::Size),
            FoldOp::Sum => Ok(FoldOp::Sum),
            FoldOp::Join(separator) => Ok(FoldOp::Join(separator.copy()?)),
            FoldOp::Chain => Ok(FoldOp::Chain),
            FoldOp::Greatest => Ok(FoldOp::Greatest),
            FoldOp::Tally => Ok(FoldOp::Tally),
        }
    }
}

impl Value for ListOp {
    fn copy(&self) -> Result<ListOp, NoMemory> {
        match self {
            ListOp::First(count) => Ok(ListOp::First(*count)),
            ListOp::Sorted => Ok(ListOp::Sorted),
            ListOp::Concat => Ok(ListOp::Concat),
        }
    }
}
