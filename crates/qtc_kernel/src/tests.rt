ghost use Rattle.std.specs.Prelude.{IsTrue};
ghost use Rattle.qtc_kernel.specs.Driving.{AreSizes};

mod engines;
mod gates;
mod one_worker;
mod suspensions;

use qtc_base::{Bytes, Items, NoMemory};
use qtc_future::{FutureCore, Outcome};
use std::alloc::Global;
use std::test::Fail;

fn are_sizes(sizes: &[u32]) -> bool
    ensures { IsTrue result → AreSizes sizes.now }
{
    !sizes.is_empty()
        && sizes.iter().all(|size| *size >= 1)
        && sizes.iter().all(|size| *size <= 65_536)
}

// Each byte is an item.
fn bytes_of(alloc: Global, text: &[u8]) -> Result<Items, Fail> {
    let mut items = Items::new(alloc);
    for byte in text {
        items.push(&[*byte])?;
    }
    Ok(items)
}

// Whether the future's outcome is these values, each a byte.
fn gives(core: FutureCore<Bytes>, want: &[u8]) -> Result<bool, NoMemory> {
    match core.into_outcome()? {
        Outcome::Values(values) => {
            let values = values.as_slice();
            Ok(
                values.len() == want.len()
                    && values
                        .iter()
                        .zip(want)
                        .all(|(value, byte)| value.as_slice() == [*byte].as_slice()),
            )
        }
        _ => Ok(false),
    }
}
